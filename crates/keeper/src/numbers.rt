// The numbers that the answers stand for. Each is a match: a denial with data has no discriminants, and so all read alike.
ghost use Rattle.std.specs.Prelude.{◌≡◌, ℕ};
ghost use Rattle.keeper.specs.Numbers.{offer_denial_number, pay_in_denial_number, cover_denial_number, outcome_number};

use crate::answer::{CoverDenial, OfferDenial, PayInDenial};

// What is told by a number. An answer is told by 0 where the call was carried out, else by its denial's number.
pub trait Numbered {
    ghost number_in: { Self → ℕ };

    fn number(&self) -> u8
        ensures { result ≡ number_in self.now };
}

impl<T, D: Numbered> Numbered for Result<T, D> {
    ghost number_in = { outcome_number D.Numbered.number_in };

    fn number(&self) -> u8 {
        match self {
            Ok(_) => 0,
            Err(denial) => denial.number(),
        }
    }
}

impl Numbered for OfferDenial {
    ghost number_in = { offer_denial_number };

    fn number(&self) -> u8 {
        match self {
            OfferDenial::Unsound => 21,
            OfferDenial::NoSitting => 16,
            OfferDenial::Short { .. } => 17,
        }
    }
}

impl Numbered for PayInDenial {
    ghost number_in = { pay_in_denial_number };

    fn number(&self) -> u8 {
        match self {
            PayInDenial::NoSuchHouse => 1,
            PayInDenial::Refused => 19,
        }
    }
}

impl Numbered for CoverDenial {
    ghost number_in = { cover_denial_number };

    fn number(&self) -> u8 {
        match self {
            CoverDenial::NoSuchHouse => 1,
        }
    }
}
