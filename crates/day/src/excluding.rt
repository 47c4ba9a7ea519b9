// The house that was named short is excluded.
ghost use Rattle.std.specs.Prelude.{◌≡◌, ◌||◌};
ghost use Rattle.netting.specs.Payments.{is_from, is_to};
ghost use Rattle.day.specs.Answers.{exclude_answer, records_excluded, remembered_excluded};
ghost use Rattle.day.specs.View.{records_of, Fixed};

use crate::answer::{ExcludeAnswer, ExcludeDenial};
use crate::day::Day;
use records::{Record, State};

// Whether the house sends the message or receives it.
fn is_by_or_to(r: Record, house: usize) -> bool
    ensures { result ≡ (is_from r house || is_to r house) }
{
    r.sender == house || r.receiver == Some(house)
}

impl<'a> Day<'a> {
    // Every payment that waits, by or to the remembered house, is excluded, and the house is forgotten.
    pub fn exclude(&mut self, place: usize) -> ExcludeAnswer
        ensures answer { result ≡ exclude_answer self.old.ledger.houses self.old.phase self.old.remembered place }
        ensures records_after { records_of self.new.ledger ≡ records_excluded place result (records_of self.old.ledger) }
        ensures remembered_after { self.new.remembered ≡ remembered_excluded result self.old.remembered }
        ensures phase_stays { self.new.phase ≡ self.old.phase }
        ensures fixed { Fixed self.old.ledger self.new.ledger }
    {
        if place >= self.ledger.houses {
            return Err(ExcludeDenial::NoSuchHouse);
        }
        if !self.phase.is_afternoon_calculated() {
            return Err(ExcludeDenial::WrongPhase);
        }
        if self.remembered != Some(place) {
            return Err(ExcludeDenial::NotRemembered);
        }
        self.ledger.put_where(State::Excluded, |_, r| {
            r.state.is_waiting() && is_by_or_to(r, place)
        });
        self.remembered = None;
        Ok(())
    }
}
