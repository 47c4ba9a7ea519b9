// The fields of a message: each kind of field read as one of four shapes, a part of the text's bytes, or refused with the code
// and row of its first failing check. Knows nothing of the message that a field stands in, of houses or of days.

#![tactic(auto)]

mod fault;
pub mod letters;
mod lines;
mod lone;
pub mod party;
pub mod read;
pub mod run;
pub mod shape;
pub mod single;
pub mod terms;
#[cfg(test)]
mod tests;
pub mod value;
