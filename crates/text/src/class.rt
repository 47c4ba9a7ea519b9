// The classes of characters that the formats speak of.
#[derive(Clone, Copy, PartialEq, Eq, Debug)]
pub enum Class {
    // 0 to 9
    Digit,
    // A to Z
    Capital,
    // A to Z or 0 to 9
    Alphanumeric,
    // SWIFT's set in capitals: letters, digits, space and / - ? : ( ) . , ' +
    Permitted,
}
