// The verdict on a file's body before any of its messages is judged: its control message, the amounts that it counts,
// and the denials of the whole file. Knows nothing of days, phases or records, or of what a message has to say.

#![tactic(auto)]

pub mod amounts;
pub mod control;
pub mod denial;
pub mod messages;
pub mod reading;
mod stated;
mod tally;
#[cfg(test)]
mod tests;
pub mod verdict;
