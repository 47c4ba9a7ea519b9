// A file's name: its type, the day of the year, its number and its extension, and why a name is denied.
// Knows nothing of what a file holds, of senders, or of dates.

#![tactic(auto)]

pub mod judge;
pub mod kinds;
#[cfg(test)]
mod tests;
