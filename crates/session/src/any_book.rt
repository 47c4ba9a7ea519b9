// A book of any kind: an enum of the two, since a line says the kind as the program runs, and a match on it takes no memory.
ghost use Rattle.std.specs.Prelude.{◌≡◌};
ghost use Rattle.keeper.specs.Offers.{OfferAnswered, OfferDenied, covers_after, sittings_after};
ghost use Rattle.keeper.specs.PayIns.{pay_in_answer, covers_paid, PayInDenied};
ghost use Rattle.session.specs.Books.{kind_of, covers_in, sittings_in, pledges_in, Names};
ghost use Rattle.std.proofs.Common.{rules};
ghost use Rattle.std.proofs.lemmas.List.{length-map};

use books::{AccountBook, GuaranteeBook};
use keeper::{CoverAnswer, Keeper, OfferAnswer, PayInAnswer, PayingIn};

#[derive(Drop)]
pub enum AnyBook {
    Account(AccountBook),
    Guarantee(GuaranteeBook),
}

impl Keeper for AnyBook {
    ghost covers = { covers_in };

    ghost sittings = { sittings_in };

    ghost some = { Prim.search (rules, length-map) };

    ghost few = { Prim.search (rules, length-map) };

    ghost bounded = { Prim.search rules };

    fn houses(&self) -> usize {
        match self {
            AnyBook::Account(book) => book.houses(),
            AnyBook::Guarantee(book) => book.houses(),
        }
    }

    fn cover(&self, place: usize) -> CoverAnswer {
        match self {
            AnyBook::Account(book) => book.cover(place),
            AnyBook::Guarantee(book) => book.cover(place),
        }
    }

    fn sittings_left(&self) -> u64 {
        match self {
            AnyBook::Account(book) => book.sittings_left(),
            AnyBook::Guarantee(book) => book.sittings_left(),
        }
    }

    fn offer(&mut self, positions: &[i64]) -> OfferAnswer
        ensures answer { OfferAnswered (covers_in self.old) (sittings_in self.old) positions.now result }
        ensures covers_after { covers_in self.new ≡ covers_after (covers_in self.old) positions.now result }
        ensures sittings_after { sittings_in self.new ≡ sittings_after (sittings_in self.old) result }
        ensures denial_alters_nothing { OfferDenied result → self.new ≡ self.old }
        ensures kind_stays { kind_of self.new ≡ kind_of self.old }
        ensures named { Names self.old positions.now result }
        ensures pledges_stay { pledges_in self.new ≡ pledges_in self.old }
    {
        match self {
            AnyBook::Account(book) => book.offer(positions),
            AnyBook::Guarantee(book) => book.offer(positions),
        }
    }
}

impl PayingIn for AnyBook {
    fn pay_in(&mut self, place: usize, amount: u64) -> PayInAnswer
        ensures answer { result ≡ pay_in_answer (covers_in self.old) place amount }
        ensures covers_after { covers_in self.new ≡ covers_paid (covers_in self.old) place amount result }
        ensures sittings_after { sittings_in self.new ≡ sittings_in self.old }
        ensures denial_alters_nothing { PayInDenied result → self.new ≡ self.old }
        ensures kind_stays { kind_of self.new ≡ kind_of self.old }
        ensures pledges_stay { pledges_in self.new ≡ pledges_in self.old }
    {
        match self {
            AnyBook::Account(book) => book.pay_in(place, amount),
            AnyBook::Guarantee(book) => book.pay_in(place, amount),
        }
    }
}
