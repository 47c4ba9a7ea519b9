// A list of offers and pay-ins carried out on any paying-in keeper.
ghost use Rattle.std.specs.Prelude.{◌≡◌, ℕ, ◌≤◌, min, length, slice_index_or};
ghost use Rattle.keeper.specs.Runs.{Does, StepDenied, Carried, history};

use crate::keeping::PayingIn;
use crate::step::{Step, StepAnswer};

// One step.
pub fn act<K: PayingIn>(keeper: &mut K, step: Step) -> StepAnswer
    ensures does { Does step.entry result (record { covers = K.Keeper.covers keeper.old; sittings = K.Keeper.sittings keeper.old }) (record { covers = K.Keeper.covers keeper.new; sittings = K.Keeper.sittings keeper.new }) }
    ensures denial_alters_nothing { StepDenied result → keeper.new ≡ keeper.old }
{
    match step {
        Step::Offer { positions } => StepAnswer::Offer(keeper.offer(positions)),
        Step::PayIn { place, amount } => StepAnswer::PayIn(keeper.pay_in(place, amount)),
    }
}

// The steps in order, as many as there is room for answers. Each answer is written at its step's place; the rest of `answers` stays.
pub fn carry_out<K: PayingIn>(keeper: &mut K, steps: &[Step], answers: &mut [StepAnswer])
    ensures carried { Carried (record { covers = K.Keeper.covers keeper.old; sittings = K.Keeper.sittings keeper.old }) (history steps.now answers.new (min (length steps.now) (length answers.old))) (record { covers = K.Keeper.covers keeper.new; sittings = K.Keeper.sittings keeper.new }) }
    ensures rest_stays { (k : ℕ) (d : StepAnswer) → length steps.now ≤ k → slice_index_or answers.new k d ≡ slice_index_or answers.old k d }
{
    for (place, step) in steps.iter().enumerate() {
        if place >= answers.len() {
            return;
        }
        // by place, since after a `zip` with `iter_mut` a proof knows nothing of what was written
        answers[place] = act(keeper, *step);
    }
}
