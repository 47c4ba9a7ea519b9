// The phases of a day, in order.
ghost use Rattle.std.specs.Prelude.{◌≡◌};
ghost use Rattle.day.specs.Phases.{is_calculated, is_afternoon_calculated, phase_number};

#[derive(Clone, Copy, PartialEq, Eq, Debug)]
pub enum Phase {
    // files are handed in
    MorningCollecting = 1,
    // the morning is to be settled
    MorningCalculated = 2,
    // files are handed in again
    AfternoonCollecting = 3,
    // the afternoon is to be settled
    AfternoonCalculated = 4,
    Over = 5,
}

impl Phase {
    pub fn number(self) -> u8
        ensures { result ≡ phase_number self }
    {
        self as u8
    }

    // Positions are answered, and one of the two settlements is due.
    pub(crate) fn is_calculated(self) -> bool
        ensures { result ≡ is_calculated self }
    {
        matches!(self, Phase::MorningCalculated | Phase::AfternoonCalculated)
    }

    pub(crate) fn is_afternoon_calculated(self) -> bool
        ensures { result ≡ is_afternoon_calculated self }
    {
        self == Phase::AfternoonCalculated
    }
}
