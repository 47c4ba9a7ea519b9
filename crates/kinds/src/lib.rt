// Kinds of message behind one interface, and the verdict on a message of any kind: the first check that fails, or what was read.
// Knows nothing of a particular kind, of records, phases and covers.

#![tactic(auto)]

mod judging;
mod kind;
mod reading;

pub use headers::Sender;
pub use judging::{Passed, judge};
pub use kind::Kind;
