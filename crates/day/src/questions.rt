// What a day tells of itself.
ghost use Rattle.std.specs.Prelude.{◌≡◌};
ghost use Rattle.day.specs.View.{records_of};

use crate::day::Day;
use crate::phase::Phase;
use records::Record;

impl<'a> Day<'a> {
    pub fn phase(&self) -> Phase
        ensures { result ≡ self.now.phase }
    {
        self.phase
    }

    // The house that was named short and may be excluded.
    pub fn remembered(&self) -> Option<usize>
        ensures { result ≡ self.now.remembered }
    {
        self.remembered
    }

    pub fn houses(&self) -> usize
        ensures { result ≡ self.now.ledger.houses }
    {
        self.ledger.houses
    }

    // The records so far, in the order in which the messages were handed in.
    pub fn records(&self) -> &[Record]
        ensures { result.now ≡ records_of self.now.ledger }
    {
        self.ledger.listed()
    }
}
