// The codes that the formats write: BICs, Latvian account numbers and payment instructions, each with the test of its form.
// Knows nothing of rows, messages or days.

#![tactic(auto)]

pub mod accounts;
pub mod bics;
mod entry;
pub mod examples;
pub mod instructions;
#[cfg(test)]
mod tests;
