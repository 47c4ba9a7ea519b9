// The tag that begins a field.

// Two digits as a number, and a capital letter or none.
#[derive(Clone, Copy, PartialEq, Eq, Debug)]
pub struct Tag {
    pub number: u8,
    pub letter: Option<u8>,
}
