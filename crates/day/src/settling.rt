// The settlement of the morning and of the afternoon.
ghost use Rattle.std.specs.Prelude.{◌≡◌, ◌≤◌, length, IsErr};
ghost use Rattle.keeper.specs.Offers.{OfferDenied};
ghost use Rattle.netting.specs.Outcomes.{MorningSettled, AllOffered};
ghost use Rattle.day.specs.Settling.{Settles};
ghost use Rattle.day.specs.View.{records_of, Fixed, scene_of};

use crate::answer::{SettleAnswer, SettleDenial};
use crate::day::Day;
use crate::ledger::Ledger;
use crate::phase::Phase;
use keeper::{Keeper, MOST_HOUSES, OfferAnswer, OfferDenial};
use netting::{offer_all, settle_morning};
use records::State;

// Room for the marks of any day, and below for its positions, as nothing is allocated after the opening.
const MOST_RECORDS: usize = 4096;

impl<'a> Ledger<'a> {
    // Has the keeper take the greatest selection that the covers admit, and marks it.
    fn choose<K: Keeper>(&self, keeper: &mut K, marks: &mut [bool]) -> OfferAnswer
        requires houses { self.now.houses ≡ length (K.Keeper.covers keeper.old) }
        requires long { self.now.used ≤ length marks.old }
        ensures settled { MorningSettled (records_of self.now) marks.new (K.Keeper.covers keeper.old) (K.Keeper.sittings keeper.old) (K.Keeper.covers keeper.new) (K.Keeper.sittings keeper.new) result }
        ensures denial_alters_nothing { OfferDenied result → keeper.new ≡ keeper.old }
    {
        let mut positions = [0i64; MOST_HOUSES];
        settle_morning(self.listed(), keeper, marks, &mut positions[..self.houses])
    }

    // Has the keeper take all that waits.
    fn offer_rest<K: Keeper>(&self, keeper: &mut K) -> OfferAnswer
        requires houses { self.now.houses ≡ length (K.Keeper.covers keeper.old) }
        ensures offered { AllOffered (records_of self.now) (K.Keeper.covers keeper.old) (K.Keeper.sittings keeper.old) (K.Keeper.covers keeper.new) (K.Keeper.sittings keeper.new) result }
        ensures denial_alters_nothing { OfferDenied result → keeper.new ≡ keeper.old }
    {
        let mut marks = [false; MOST_RECORDS];
        let mut positions = [0i64; MOST_HOUSES];
        offer_all(
            self.listed(),
            keeper,
            &mut marks,
            &mut positions[..self.houses],
        )
    }
}

impl<'a> Day<'a> {
    // Settles the greatest admissible selection of what waits in the morning, or all that waits in the afternoon.
    pub fn settle<K: Keeper>(&mut self, keeper: &mut K) -> SettleAnswer
        ensures settles { Settles self.old.ledger.houses result (scene_of self.old (K.Keeper.covers keeper.old) (K.Keeper.sittings keeper.old)) (scene_of self.new (K.Keeper.covers keeper.new) (K.Keeper.sittings keeper.new)) }
        ensures denial_keeps_keeper { IsErr result → keeper.new ≡ keeper.old }
        ensures fixed { Fixed self.old.ledger self.new.ledger }
    {
        if !self.phase.is_calculated() {
            return Err(SettleDenial::WrongPhase);
        }
        if keeper.houses() != self.ledger.houses {
            return Err(SettleDenial::OtherHouses);
        }
        if self.phase.is_afternoon_calculated() {
            // a match, since the short house is remembered, and no offer of a day is unsound
            match self.ledger.offer_rest(keeper) {
                Ok(()) => {}
                Err(OfferDenial::NoSitting) => return Err(SettleDenial::NoSitting),
                Err(OfferDenial::Short { place, cover }) => {
                    self.remembered = Some(place);
                    return Err(SettleDenial::Short { place, cover });
                }
                Err(OfferDenial::Unsound) => unreachable(),
            }
            self.ledger
                .put_where(State::SettledAfternoon, |_, r| r.state.is_waiting());
            self.phase = Phase::Over;
        } else {
            let mut marks = [false; MOST_RECORDS];
            self.ledger
                .choose(keeper, &mut marks)
                // a morning is denied for want of a sitting alone
                .map_err(|_| SettleDenial::NoSitting)?;
            self.ledger
                .put_where(State::SettledMorning, |i, _| marks[i]);
            self.phase = Phase::AfternoonCollecting;
        }
        Ok(())
    }
}
