// A text with three fields, and one that is not formed.
use crate::tagged::Fields;
use std::test::Fail;

#[test]
fn fields_end_at_the_next_tag(rt: HostRuntime) -> Result<(), Fail> {
    let mut fields = Fields::of(b":20:REF\r\n:50K:/1\r\nA NAME\r\n:59:B\r\n");
    let first = fields.next().ok_or("20")?;
    assert!(rt; first.tag.number == 20 && first.bytes == b"REF\r\n".as_slice());
    let second = fields.next().ok_or("50")?;
    assert!(rt; second.tag.number == 50 && second.bytes == b"/1\r\nA NAME\r\n".as_slice());
    let third = fields.next().ok_or("59")?;
    assert!(rt; third.tag.letter.is_none() && third.bytes == b"B\r\n".as_slice());
    assert!(rt; fields.next().is_none());
    assert!(rt; Fields::of(b":20:REF").next().is_none());
    Ok(())
}
