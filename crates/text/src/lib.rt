// The bytes of the message formats: classes of characters, parts of a slice, rows ended by CrLf, tags and references.
// Knows nothing of money, houses or messages.

#![tactic(auto)]

pub mod chars;
pub mod class;
pub mod digits;
pub mod form;
pub mod reference;
pub mod rows;
pub mod slices;
pub mod tag;
pub mod tags;
pub mod tail;
#[cfg(test)]
mod trials;
