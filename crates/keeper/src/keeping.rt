// A keeper of the houses' covers, and one that takes pay-ins besides.
ghost use Rattle.std.specs.Prelude.{◌≡◌, ℕ, ◌≤◌, List, length};
ghost use Rattle.keeper.specs.Covers.{total, most_together, most_houses, cover_answer};
ghost use Rattle.keeper.specs.Offers.{OfferAnswered, OfferDenied, covers_after, sittings_after};
ghost use Rattle.keeper.specs.PayIns.{pay_in_answer, covers_paid, PayInDenied};

use crate::answer::{CoverAnswer, OfferAnswer, PayInAnswer};

// A keeper has 1 to so many houses.
pub const MOST_HOUSES: usize = 64;

pub trait Keeper {
    // One cover a house, by place: what the house may be in debit at most, in cents.
    ghost covers: { Self → List ℕ };

    // How many sittings the keeper will still take.
    ghost sittings: { Self → ℕ };

    fn houses(&self) -> usize
        ensures { result ≡ length (covers self.now) };

    fn cover(&self, place: usize) -> CoverAnswer
        ensures { result ≡ cover_answer (covers self.now) place };

    fn sittings_left(&self) -> u64
        ensures { result ≡ sittings self.now };

    // Denied as Unsound, then NoSitting, then Short exactly where some debit is above its cover; else taken.
    // Which of several short houses is named is the keeper's own choice.
    fn offer(&mut self, positions: &[i64]) -> OfferAnswer
        ensures answer { OfferAnswered (covers self.old) (sittings self.old) positions.now result }
        ensures covers_after { covers self.new ≡ covers_after (covers self.old) positions.now result }
        ensures sittings_after { sittings self.new ≡ sittings_after (sittings self.old) result }
        ensures denial_alters_nothing { OfferDenied result → self.new ≡ self.old };

    ghost some: { (k : Self) → 1 ≤ length (covers k) };

    ghost few: { (k : Self) → length (covers k) ≤ most_houses };

    ghost bounded: { (k : Self) → total (covers k) ≤ most_together };
}

pub trait PayingIn: Keeper {
    // Denied as NoSuchHouse, then Refused; else taken, one cover higher. A pay-in uses no sitting.
    fn pay_in(&mut self, place: usize, amount: u64) -> PayInAnswer
        ensures answer { result ≡ pay_in_answer (Self.Keeper.covers self.old) place amount }
        ensures covers_after { Self.Keeper.covers self.new ≡ covers_paid (Self.Keeper.covers self.old) place amount result }
        ensures sittings_after { Self.Keeper.sittings self.new ≡ Self.Keeper.sittings self.old }
        ensures denial_alters_nothing { PayInDenied result → self.new ≡ self.old };
}
