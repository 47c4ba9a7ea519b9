// The fixed bytes of the formats, as they are read and written.
// The byte that opens a frame.
pub const SOH: u8 = 0x01;
// The byte that closes a frame's content.
pub const ETX: u8 = 0x03;
// What closes a frame: its byte and CrLf.
pub const FRAME_END: &[u8] = b"\x03\r\n";
// The two bytes that end a row.
pub const CR: u8 = b'\r';

pub const LF: u8 = b'\n';
// What stands before block 1.
pub const BEFORE_FIRST: &[u8] = b"{1:";
// What stands between blocks 1 and 2.
pub const BEFORE_SECOND: &[u8] = b"}{2:";
// What stands between block 2 and the text.
pub const BEFORE_TEXT: &[u8] = b"}{4:\r\n";
// What stands after the text.
pub const AFTER_TEXT: &[u8] = b"-}";
// What a row that tells an amount begins with.
pub const AMOUNT_TAG: &[u8] = b":32A:";
