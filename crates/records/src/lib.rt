// The record of one message that was handed in: by which house, in which file, where in it, for how much and to whom, and what became of it.
// Knows nothing of how a message is written, of covers, or of the phases of a day.

#![tactic(auto)]

mod recorded;
mod state;

pub use recorded::Record;
pub use state::State;
