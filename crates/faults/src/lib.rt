// The codes by which a message is rejected, and where in a message a check failed.
// Knows nothing of how a check works.

#![tactic(auto)]

mod code;
mod numbers;

pub use code::{Code, Fault};
