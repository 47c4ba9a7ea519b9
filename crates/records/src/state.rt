// What became of a message.
ghost use Rattle.std.specs.Prelude.{◌≡◌};
ghost use Rattle.records.specs.States.{waits, is_rejected, is_settled, is_excluded};

#[derive(Clone, Copy, PartialEq, Eq, Debug)]
pub enum State {
    // refused when it was handed in: the code, and the message, field and row that it is about,
    // plain numbers, so that a record knows nothing of how a message is judged
    Rejected {
        code: u16,
        message: u16,
        field: u8,
        row: u64,
    },
    // to be settled
    Waiting,
    SettledMorning,
    SettledAfternoon,
    // taken out of the day unsettled
    Excluded,
}

impl State {
    pub fn is_waiting(self) -> bool
        ensures { result ≡ waits self }
    {
        matches!(self, State::Waiting)
    }

    pub fn is_rejected(self) -> bool
        ensures { result ≡ is_rejected self }
    {
        matches!(self, State::Rejected { .. })
    }

    pub fn is_settled(self) -> bool
        ensures { result ≡ is_settled self }
    {
        matches!(self, State::SettledMorning | State::SettledAfternoon)
    }

    pub fn is_excluded(self) -> bool
        ensures { result ≡ is_excluded self }
    {
        matches!(self, State::Excluded)
    }
}
