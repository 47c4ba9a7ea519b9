// What a name tells, what it is judged by, and why it is denied.

// The type of a file.
#[derive(Clone, Copy, PartialEq, Eq, Debug)]
pub enum FileKind {
    // PL
    Payments,
    // RL
    Returns,
}

// What a good name tells.
#[derive(Clone, Copy)]
pub struct FileName {
    pub kind: FileKind,
    pub number: u16,
}

// The last number that a sender used for each type, 0 where it used none.
#[derive(Clone, Copy)]
pub struct LastNumbers {
    pub payments: u16,
    pub returns: u16,
}

// Why a name is denied, in the order of the checks, each by its number.
#[derive(Clone, Copy, PartialEq, Eq, Debug)]
pub enum NameDenial {
    // not 13 bytes
    WrongLength = 4,
    // neither PL nor RL
    WrongType = 5,
    // not the day of the year
    WrongDay = 6,
    // a number neither used nor next
    WrongNumber = 7,
    // a used number
    UsedNumber = 8,
    // neither .ent nor .p7m
    WrongExtension = 9,
}
