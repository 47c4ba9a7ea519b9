// What a script has set up so far.
ghost use Rattle.std.specs.Prelude.{◌≡◌, Some, None, Ok, Err};
ghost use Rattle.script.specs.declared.command.LineError.TheVariants.{NoBook};
ghost use Rattle.session.specs.Carried.{Opens, Offered, PaidIn, WithBook};

use crate::answer::{BookAnswer, BookDenial};
use crate::any_book::AnyBook;
use crate::opening::open_kind;
use books::OpenDenial;
use keeper::{Keeper, OfferAnswer, PayInAnswer, PayingIn};
use script::command::{Kind, LineError};
use std::alloc::Global;

// The book that was opened last, if one was.
#[derive(Drop)]
pub struct Session {
    book: Option<AnyBook>,
}

impl Session {
    pub fn new() -> Session
        ensures { result.book ≡ None }
    {
        Session { book: None }
    }

    // A book takes the place of the one before it; one that is denied leaves that one.
    pub fn open_book(
        &mut self,
        heap: Global,
        kind: Kind,
        sittings: u64,
        sums: &[u64],
    ) -> Result<BookAnswer, LineError>
        ensures { Opens kind sittings sums.now self.old.book result self.new.book }
    {
        // a match, since each of the three does another thing
        match open_kind(heap, kind, sums, sittings) {
            Ok(book) => {
                self.book = Some(book);
                Ok(Ok(()))
            }
            Err(OpenDenial::BreaksRule) => Ok(Err(BookDenial::BreaksRule)),
            Err(OpenDenial::NoMemory) => Err(LineError::NoMemory),
        }
    }

    pub fn offer(&mut self, positions: &[i64]) -> Result<OfferAnswer, LineError>
        ensures { WithBook (Offered positions.now) self.old.book result self.new.book }
    {
        let book = self.book.as_mut().ok_or(LineError::NoBook)?;
        Ok(book.offer(positions))
    }

    pub fn pay_in(&mut self, place: usize, cents: u64) -> Result<PayInAnswer, LineError>
        ensures { WithBook (PaidIn place cents) self.old.book result self.new.book }
    {
        let book = self.book.as_mut().ok_or(LineError::NoBook)?;
        Ok(book.pay_in(place, cents))
    }

    // The book, to be asked.
    pub fn book(&self) -> Result<&AnyBook, LineError>
        ensures { elim result [ Ok b ↦ self.now.book ≡ Some b.now | Err e ↦ (self.now.book ≡ None) × (e ≡ NoBook) ] }
    {
        self.book.as_ref().ok_or(LineError::NoBook)
    }
}
