// The records of a day, in the caller's slice, and the houses that they go between. Every store into the records stands here.
ghost use Rattle.std.specs.Prelude.{◌≡◌, ℕ, ◌<◌, ◌≤◌, false, length, take};
ghost use Rattle.std.proofs.Props.{props};
ghost use Rattle.keeper.specs.Covers.{most_houses};
ghost use Rattle.netting.specs.Payments.{Listed};
ghost use Rattle.records.specs.States.{waits};
ghost use Rattle.records.specs.declared.recorded.Record.{Record};
ghost use Rattle.day.specs.Changes.{PutWhere};

use records::{Record, State};

#[derive(Drop)]
pub(crate) struct Ledger<'a> {
    pub(crate) records: &'a mut [Record],
    // how many of them are the day's; the rest is free. The slice is the caller's, as nothing is allocated for a record
    pub(crate) used: usize,
    pub(crate) houses: usize,
    ghost room: { used ≤ length records.now },
    ghost few: { houses ≤ most_houses },
    ghost listed: { Listed houses (take used records.now) } by { Prim.hlevel props },
}

impl<'a> Ledger<'a> {
    // `Fixed` is of two ledgers, before a call and after it, so each call says it and no type can.
    ghost use Rattle.day.specs.View.{records_of, Fixed};

    // The records so far, of which those that wait are payments between the houses.
    pub(crate) fn listed(&self) -> &[Record]
        ensures records { result.now ≡ records_of self.now }
        ensures listed { Listed self.now.houses result.now }
    {
        &self.records[..self.used]
    }

    // Each record for which the test holds, asked with its place, goes into the state.
    pub(crate) fn put_where<F: Fn(usize, Record) -> bool>(&mut self, state: State, holds: F)
        requires callable { (i : ℕ) (r : Record) → i < self.old.used → F.pre holds i r }
        requires no_wait { waits state ≡ false }
        ensures records { PutWhere (F.post holds) state (records_of self.old) (records_of self.new) }
        ensures fixed { Fixed self.old self.new }
    {
        for (i, r) in self.records[..self.used].iter_mut().enumerate() {
            if holds(i, *r) {
                r.state = state;
            }
        }
    }
}
