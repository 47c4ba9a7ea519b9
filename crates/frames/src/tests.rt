// Bodies, contents and rows at the edges of the rules.
use crate::blocks::Blocks;
use crate::fixed::SOH;
use crate::reader::{Reader, count};
use crate::rows::amount_row;
use std::test::Fail;

const MEBIBYTE: usize = 1_048_576;

#[test]
fn bodies_are_only_frames(rt: HostRuntime) {
    assert_eq!(rt; count(b""), Some(0));
    assert_eq!(rt; count(b"\x01\x03\r\n"), Some(1), "an empty frame");
    assert_eq!(rt;
        count(b"\x01\x01a\x03\r\n\x01b\x03\r\n"),
        Some(2),
        "01h is content"
    );
    assert_eq!(rt; count(b"\x01"), None);
    assert_eq!(rt; count(b"\x01a\x03\r"), None);
    assert_eq!(rt;
        count(b"\x01a\x03b\x03\r\n"),
        None,
        "the first 03h lacks CrLf"
    );
    assert_eq!(rt; count(b"\x01a\x03\r\n "), None, "a byte after the frames");
}

#[test]
fn a_frame_may_never_end(rt: HostRuntime) -> Result<(), Fail> {
    let body = vec![in rt.alloc(); SOH; MEBIBYTE]?;
    assert_eq!(rt; count(&body), None);
    Ok(())
}

#[test]
fn frames_come_in_order(rt: HostRuntime) {
    let mut reader = Reader::new(b"\x01ab\x03\r\n\x01\x03\r\n?");
    assert_eq!(rt; reader.next(), Some(&b"ab"[..]));
    assert_eq!(rt; reader.next(), Some(&b""[..]));
    assert_eq!(rt; reader.next(), None);
    assert!(rt; !reader.at_end());
}

#[test]
fn contents_have_blocks(rt: HostRuntime) -> Result<(), Fail> {
    let content = b"{1:F01BANKLV22AXXX00000}{2:I103HOUSLV22XXXXN}{4:\r\n:20:A\r\n-}";
    let blocks = Blocks::read(content).ok_or("no blocks")?;
    assert_eq!(rt; blocks.sender().bic, b"BANKLV22".as_slice());
    assert_eq!(rt; blocks.sender().branch, b"XXX".as_slice());
    assert_eq!(rt; blocks.type_digits(), b"103".as_slice());
    assert_eq!(rt; blocks.receiver().bic, b"HOUSLV22".as_slice());
    assert_eq!(rt; blocks.receiver().branch, b"XXX".as_slice());
    assert_eq!(rt; blocks.text, b":20:A\r\n".as_slice());
    let bare = b"{1:F01BANKLV22AXXX00000}{2:I103HOUSLV22XXXXN}{4:\r\n-}";
    assert!(rt; Blocks::read(bare).is_some(), "an empty text");
    let small = b"{1:f01BANKLV22AXXX00000}{2:I103HOUSLV22XXXXN}{4:\r\n-}";
    assert!(rt; Blocks::read(small).is_none(), "a small letter");
    assert!(rt; Blocks::read(b"").is_none());
    Ok(())
}

#[test]
fn the_first_ended_row_tells_the_amount(rt: HostRuntime) {
    assert_eq!(rt; amount_row(b":32A:1\r\n"), Some(&b":32A:1"[..]));
    assert_eq!(rt;
        amount_row(b"x\r\n:32A:\r\n:32A:2\r\n"),
        Some(&b":32A:"[..])
    );
    assert_eq!(rt; amount_row(b"x:32A:1\r\n\n:32A:2\r\n"), None);
    assert_eq!(rt; amount_row(b"x\r\n:32A:1\r"), None, "no CrLf after it");
}
