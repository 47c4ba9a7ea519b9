// What a line can say, and why it can fail.
ghost use Rattle.std.specs.Prelude.{◌≡◌};
ghost use Rattle.script.specs.declared.command.LineError.TheVariants.{NoMemory};

use std::alloc::AllocFailed;

// The kinds of books.
#[derive(Clone, Copy, PartialEq, Eq, Debug)]
pub enum Kind {
    Account,
    Guarantee,
}

// A line's command.
#[derive(PartialEq, Eq, Debug, Drop)]
pub enum Command {
    // an empty line, or a comment
    Nothing,
    Book {
        kind: Kind,
        sittings: u64,
        sums: Vec<u64>,
    },
    Offer {
        positions: Vec<i64>,
    },
    PayIn {
        place: usize,
        cents: u64,
    },
    Covers,
}

// Why a line cannot be carried out.
#[derive(Clone, Copy, PartialEq, Eq, Debug)]
pub enum LineError {
    // the first word names no command
    UnknownCommand,
    // the book's kind is none
    UnknownKind,
    // fewer words than the command takes
    MissingWord,
    // more words than the command takes
    SpareWord,
    // no number, or one out of bounds
    BadNumber,
    // a backslash that two hexadecimal digits do not follow
    BadEscape,
    // the command needs a book, and none is open
    NoBook,
    // memory ran out
    NoMemory,
}

impl<T: Drop> From<AllocFailed<T>> for LineError {
    ghost from_gives = { λ _ r. r ≡ NoMemory };

    fn from(_e: AllocFailed<T>) -> LineError {
        LineError::NoMemory
    }
}
