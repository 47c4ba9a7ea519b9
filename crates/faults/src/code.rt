// What a failed check is called and where it failed.
ghost use Rattle.std.specs.Prelude.{◌≡◌};

// The codes: those of the frame in the order of their checks, the others by letter and number.
// A code's number is a hundred times its letter's byte, and its two digits.
#[derive(Clone, Copy, PartialEq, Eq, Debug)]
pub enum Code {
    // the frame's blocks
    F01 = 7001,
    // the sender's address in block 1
    H04 = 7204,
    // the type in block 2
    H06 = 7206,
    // the receiver's address in block 2
    H05 = 7205,
    // the rows of the text
    F04 = 7004,
    // the order of the fields
    F05 = 7005,
    // a field's form
    F06 = 7006,
    // a BIC in a field
    F07 = 7007,
    // the date
    T09 = 8409,
    // the currency
    T10 = 8410,
    // the amount's form
    T11 = 8411,
    // a later row of a party that begins with a slash
    T12 = 8412,
    // a party without a name
    T13 = 8413,
    // a payee without an account
    T20 = 8420,
    // a used reference
    T21 = 8421,
    // the receiver in a return
    T26 = 8426,
    // the first row of a return's reason
    T27 = 8427,
    // the code in a return's reason
    T28 = 8428,
    // the amount's limit
    T29 = 8429,
    // a Latvian account number
    T31 = 8431,
    // the payee's bank
    T33 = 8433,
}

// The first check that failed: the two digits of its field and the row in it from 1, each 0 where the code has none.
// They are plain numbers, as the record of a rejected message holds them.
#[derive(Clone, Copy, PartialEq, Eq, Debug)]
pub struct Fault {
    pub code: Code,
    pub field: u8,
    pub row: u64,
}

impl Fault {
    // A fault of the message as a whole: no field, no row.
    pub fn of_message(code: Code) -> Fault
        ensures { result ≡ record { code = code; field = 0; row = 0 } }
    {
        Fault {
            code,
            field: 0,
            row: 0,
        }
    }
}
