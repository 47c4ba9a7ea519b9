// The selected payments and the positions of the houses under them, kept in step.
ghost use Rattle.std.specs.Prelude.{◌≡◌, ℕ, ◌+◌, ◌<◌, ◌≤◌, true, false, length, pos, Decides, slice_index_or, slice_set};
ghost use Rattle.std.proofs.Props.{props};
ghost use Rattle.keeper.specs.Offers.{AllWithinLimit, Lacks};
ghost use Rattle.netting.specs.Payments.{Listed, waiting, most_cents};
ghost use Rattle.netting.specs.Selections.{marked};
ghost use Rattle.netting.specs.Steps.{Shifted, InStep, Latest, NoneFrom, count};

use records::Record;

// Takes the amount from one position and adds it to another.
fn shift(positions: &mut [i64], from: usize, to: usize, amount: u64)
    requires from { from < length positions.old }
    requires to { to < length positions.old }
    requires small { amount ≤ most_cents }
    requires within { AllWithinLimit positions.old }
    ensures { Shifted positions.old from to amount positions.new }
{
    positions[from] -= amount as i64;
    positions[to] += amount as i64;
}

// The selected payments, in slices of the caller's, as nothing is allocated here: a mark for each record, and a position for each house.
#[derive(Drop)]
pub(crate) struct Selected<'a> {
    records: &'a [Record],
    marks: &'a mut [bool],
    positions: &'a mut [i64],
    ghost in_step: { InStep (length positions.now) records.now marks.now positions.now } by { Prim.hlevel props },
}

impl<'a> Selected<'a> {
    ghost use Rattle.netting.specs.Selected.{StandsIn, LosesNothing};

    // Every payment that waits.
    pub(crate) fn all(
        records: &'a [Record],
        marks: &'a mut [bool],
        positions: &'a mut [i64],
    ) -> Self
        requires listed { Listed (length positions.old) records.now }
        requires long { length records.now ≤ length marks.old }
        ensures there { StandsIn records.now marks.entry positions.entry result }
        ensures all { (k : ℕ) → k < length records.now → slice_index_or result.marks.now k false ≡ waiting records.now k }
    {
        marks.fill(false);
        positions.fill(0);
        let mut selected = Selected {
            records,
            marks,
            positions,
        };
        selected.enter_all();
        selected
    }

    // Every payment that waits joins the selection, which is empty.
    fn enter_all(&mut self)
        requires { (k : ℕ) → slice_index_or self.old.marks.now k false ≡ false }
        ensures there { StandsIn self.old.records.now self.old.marks self.old.positions self.new }
        ensures all { (k : ℕ) → k < length self.old.records.now → slice_index_or self.new.marks.now k false ≡ waiting self.old.records.now k }
    {
        let records = self.records;
        for (i, r) in records.iter().enumerate() {
            if r.state.is_waiting() {
                self.enter(i);
            }
        }
    }

    // The positions of the houses under the selection.
    pub(crate) fn positions(&self) -> &[i64]
        ensures { result.now ≡ self.now.positions.now }
    {
        self.positions
    }

    // The payment at `i`, which is not selected, joins the selection.
    fn enter(&mut self, i: usize)
        requires here { i < length self.old.records.now }
        requires out { slice_index_or self.old.marks.now i false ≡ false }
        requires waits { waiting self.old.records.now i ≡ true }
        ensures there { StandsIn self.old.records.now self.old.marks self.old.positions self.new }
        ensures marks { self.new.marks.now ≡ slice_set self.old.marks.now i true }
    {
        let r = self.records[i];
        let receiver = r.receiver.unwrap();
        // both are written before the selection is whole again
        let Selected {
            marks,
            positions,
            ..
        } = self;
        marks[i] = true;
        shift(positions, r.sender, receiver, r.amount);
    }

    // The payment at `i`, the latest selected one of a house whose debit is above its cover, leaves the selection.
    // Nothing admissible is lost by that.
    fn leave(&mut self, house: usize, cover: u64, i: usize)
        requires house { house < length self.old.positions.now }
        requires lacks { Lacks cover (slice_index_or self.old.positions.now house (pos 0)) }
        requires latest { Latest self.old.records.now (marked self.old.marks.now) house i }
        ensures there { StandsIn self.old.records.now self.old.marks self.old.positions self.new }
        ensures nothing_lost { LosesNothing house cover self.old self.new }
        ensures fewer { count self.old.records.now (marked self.new.marks.now) < count self.old.records.now (marked self.old.marks.now) }
        ensures none { NoneFrom self.old.records.now (marked self.new.marks.now) house i }
    {
        let r = self.records[i];
        let receiver = r.receiver.unwrap();
        let Selected {
            marks,
            positions,
            ..
        } = self;
        marks[i] = false;
        shift(positions, receiver, r.sender, r.amount);
    }

    // Whether a house's debit is above its cover.
    fn is_short(&self, house: usize, cover: u64) -> bool
        requires { house < length self.now.positions.now }
        ensures { Decides result (Lacks cover (slice_index_or self.now.positions.now house (pos 0))) }
    {
        let position = self.positions[house];
        position < 0 && position.unsigned_abs() > cover
    }

    // In one walk over the records, from the last: the selected payments of the house leave, the latest first, until its debit is at most its cover.
    pub(crate) fn cut_back(&mut self, house: usize, cover: u64)
        requires { house < length self.old.positions.now }
        ensures there { StandsIn self.old.records.now self.old.marks self.old.positions self.new }
        ensures nothing_lost { LosesNothing house cover self.old self.new }
        ensures fewer { Lacks cover (slice_index_or self.old.positions.now house (pos 0)) → count self.old.records.now (marked self.new.marks.now) < count self.old.records.now (marked self.old.marks.now) }
        ensures within { Lacks cover (slice_index_or self.new.positions.now house (pos 0)) → ⊥ }
    {
        let records = self.records;
        'walk: for (i, r) in records.iter().enumerate().rev() {
            if !self.is_short(house, cover) {
                return;
            }
            if self.marks[i] && r.sender == house {
                self.leave(house, cover, i);
            }
        }
    }
}
