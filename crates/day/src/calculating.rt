// The collecting ends, and the positions are told.
ghost use Rattle.std.specs.Prelude.{◌≡◌};
ghost use Rattle.day.specs.Answers.{calculate_answer, calculated_from, position_answer};
ghost use Rattle.day.specs.View.{records_of, Fixed};

use crate::answer::{CalculateAnswer, CalculateDenial, PositionAnswer, PositionDenial};
use crate::day::Day;
use crate::phase::Phase;

impl<'a> Day<'a> {
    // Ends the collecting of the morning or of the afternoon.
    pub fn calculate(&mut self) -> CalculateAnswer
        ensures answer { result ≡ calculate_answer self.old.phase }
        ensures phase_after { self.new.phase ≡ calculated_from self.old.phase }
        ensures remembered_stays { self.new.remembered ≡ self.old.remembered }
        ensures records_stay { records_of self.new.ledger ≡ records_of self.old.ledger }
        ensures fixed { Fixed self.old.ledger self.new.ledger }
    {
        self.phase = match self.phase {
            Phase::MorningCollecting => Phase::MorningCalculated,
            Phase::AfternoonCollecting => Phase::AfternoonCalculated,
            _ => return Err(CalculateDenial::WrongPhase),
        };
        Ok(())
    }

    // The position of a house over all that waits now.
    pub fn position(&self, place: usize) -> PositionAnswer
        ensures { result ≡ position_answer self.now.ledger.houses self.now.phase (records_of self.now.ledger) place }
    {
        if place >= self.ledger.houses {
            return Err(PositionDenial::NoSuchHouse);
        }
        if !self.phase.is_calculated() {
            return Err(PositionDenial::WrongPhase);
        }
        Ok(netting::position(self.ledger.listed(), place))
    }
}
