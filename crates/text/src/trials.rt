// Texts, tags and references on examples and at their edges.
use crate::form::is_formed;
use crate::reference::is_reference;
use crate::tags::tag_of;
use std::test::Fail;

#[test]
fn texts_and_tags(rt: HostRuntime) -> Result<(), Fail> {
    assert!(rt; is_formed(b":20:\r\nA ROW\r\n:32A:X\r\n"));
    assert!(rt; !is_formed(b""));
    assert!(rt; !is_formed(b"A ROW\r\n"));
    assert!(rt; !is_formed(b":20:X\r\n-A\r\n"));
    assert!(rt; !is_formed(b":20:X\r\n:2:\r\n"));
    assert!(rt; !is_formed(b":20:X"));
    assert!(rt; !is_formed(b":20:x\r\n"));
    let tag = tag_of(b":32A:X").ok_or("32A")?;
    assert!(rt; tag.number == 32 && tag.letter.is_some() && tag.size() == 5);
    Ok(())
}

#[test]
fn references(rt: HostRuntime) {
    assert!(rt; is_reference(b"A/B"));
    assert!(rt; is_reference(b"1234567890123456"));
    assert!(rt; !is_reference(b"12345678901234567"));
    assert!(rt; !is_reference(b""));
    assert!(rt; !is_reference(b"/A"));
    assert!(rt; !is_reference(b"A/"));
    assert!(rt; !is_reference(b"A//B"));
}
