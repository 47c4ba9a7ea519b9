// What the calls on a day answer: that the call was carried out, or why it was denied.

// The day went on to its next phase.
pub type CalculateAnswer = Result<(), CalculateDenial>;

#[derive(Clone, Copy, PartialEq, Eq, Debug)]
pub enum CalculateDenial {
    // nothing is being collected
    WrongPhase,
}

// What the house is to receive less what it is to send, in cents.
pub type PositionAnswer = Result<i64, PositionDenial>;

#[derive(Clone, Copy, PartialEq, Eq, Debug)]
pub enum PositionDenial {
    NoSuchHouse,
    // nothing is calculated
    WrongPhase,
}

// The settlement that was due is done.
pub type SettleAnswer = Result<(), SettleDenial>;

#[derive(Clone, Copy, PartialEq, Eq, Debug)]
pub enum SettleDenial {
    // nothing is calculated
    WrongPhase,
    // the keeper has another number of houses than the day
    OtherHouses,
    // the keeper has no sitting left
    NoSitting,
    // in the afternoon: the debit of this house is above its cover, which is named too; the day remembers the house
    Short { place: usize, cover: u64 },
}

// The house is excluded, and forgotten.
pub type ExcludeAnswer = Result<(), ExcludeDenial>;

#[derive(Clone, Copy, PartialEq, Eq, Debug)]
pub enum ExcludeDenial {
    NoSuchHouse,
    // the afternoon is not calculated
    WrongPhase,
    // the day remembers another house, or none
    NotRemembered,
}
