// The settlement of the morning, by the greatest selection; and of all that waits, at once. Each is handed slices of the
// caller's own, so each says what it needs of them; from there on the selection carries it.
ghost use Rattle.std.specs.Prelude.{◌≡◌, ℕ, ◌<◌, ◌≤◌, false, length, slice_index_or};
ghost use Rattle.keeper.specs.Offers.{OfferDenied};
ghost use Rattle.netting.specs.Outcomes.{MorningSettled, AllOffered};
ghost use Rattle.netting.specs.Payments.{Listed, waiting};
ghost use Rattle.netting.specs.Selections.{marked, Positions};

use crate::selecting::Selected;
use keeper::{Keeper, OfferAnswer, OfferDenial};
use records::Record;

// Offers the positions of all that waits and, wherever a house is named short, of as many of its earliest payments as its cover
// carries, until the keeper takes them or has no sitting left. Where it takes them, the marks are the payments that are settled.
// The positions are those of the marked payments, whatever the answer. Each naming costs one pass over the records at most.
// The answer is the keeper's own type, of which two denials never come: the offers are sound, and in the end no house is short.
pub fn settle_morning<'a, K: Keeper>(
    records: &'a [Record],
    keeper: &mut K,
    marks: &'a mut [bool],
    positions: &'a mut [i64],
) -> OfferAnswer
    requires houses { length positions.old ≡ length (K.Keeper.covers keeper.old) }
    requires listed { Listed (length positions.old) records.now }
    requires long { length records.now ≤ length marks.old }
    ensures settled { MorningSettled records.now marks.new (K.Keeper.covers keeper.old) (K.Keeper.sittings keeper.old) (K.Keeper.covers keeper.new) (K.Keeper.sittings keeper.new) result }
    ensures denial_alters_nothing { OfferDenied result → keeper.new ≡ keeper.old }
    ensures positions { Positions records.now (marked marks.new) (length positions.old) positions.new }
{
    let mut selected = Selected::all(records, marks, positions);
    'offers: while let Err(denial) = keeper.offer(selected.positions()) {
        let OfferDenial::Short { place, cover } = denial else {
            return Err(denial);
        };
        selected.cut_back(place, cover);
    }
    Ok(())
}

// Offers the positions of all that waits, once. Whatever the answer, the marks are the payments that wait, and the positions are theirs.
pub fn offer_all<'a, K: Keeper>(
    records: &'a [Record],
    keeper: &mut K,
    marks: &'a mut [bool],
    positions: &'a mut [i64],
) -> OfferAnswer
    requires houses { length positions.old ≡ length (K.Keeper.covers keeper.old) }
    requires listed { Listed (length positions.old) records.now }
    requires long { length records.now ≤ length marks.old }
    ensures offered { AllOffered records.now (K.Keeper.covers keeper.old) (K.Keeper.sittings keeper.old) (K.Keeper.covers keeper.new) (K.Keeper.sittings keeper.new) result }
    ensures denial_alters_nothing { OfferDenied result → keeper.new ≡ keeper.old }
    ensures all { (k : ℕ) → k < length records.now → slice_index_or marks.new k false ≡ waiting records.now k }
    ensures positions { Positions records.now (marked marks.new) (length positions.old) positions.new }
{
    let selected = Selected::all(records, marks, positions);
    keeper.offer(selected.positions())
}
