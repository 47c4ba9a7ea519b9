// The reasons in words.
ghost use Rattle.std.specs.Prelude.{◌≡◌, Some};
ghost use Rattle.script.specs.Reasons.{reason};

use crate::command::LineError;
use std::error::Error;
use std::fmt;

impl LineError {
    pub fn why(self) -> &'static str
        ensures { result.now ≡ reason self }
    {
        match self {
            LineError::UnknownCommand => "unknown command",
            LineError::UnknownKind => "unknown kind of book",
            LineError::MissingWord => "a word is missing",
            LineError::SpareWord => "a word too many",
            LineError::BadNumber => "not a number in bounds",
            LineError::BadEscape => "a backslash without two hexadecimal digits",
            LineError::NoBook => "no book is open",
            LineError::NoMemory => "no memory",
        }
    }
}

impl fmt::Display for LineError {
    ghost output = { λ e. Some (reason e) };

    fn fmt<W: fmt::Write>(&self, f: &mut fmt::Formatter<W>) -> fmt::Result {
        f.write_str(self.why())
    }
}

impl Error for LineError {}
