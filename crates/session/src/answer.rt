// What `book` is answered.
ghost use Rattle.session.specs.Books.{denial_number};

use keeper::Numbered;

// The book is open, or denied. Want of memory ends the program, so it is no answer.
pub type BookAnswer = Result<(), BookDenial>;

#[derive(Clone, Copy, PartialEq, Eq, Debug)]
pub enum BookDenial {
    // not 1 to 64 houses, not 1 to 255 sittings, or a house with too large a sum
    BreaksRule,
}

impl Numbered for BookDenial {
    ghost number_in = { denial_number };

    // a match, as a keeper's
    fn number(&self) -> u8 {
        match self {
            BookDenial::BreaksRule => 20,
        }
    }
}
