// The values that the formats write: amounts in cents, dates of the calendar and currencies, each with its reading and its writing.
// Knows nothing of rows, messages or days.

#![tactic(auto)]

pub mod amounts;
pub mod currency;
pub mod dates;
mod digits;
pub mod examples;
#[cfg(test)]
mod tests;
