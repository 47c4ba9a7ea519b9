// From a file's bytes to its frames, from a frame's content to its blocks, and the row of a content that tells its amount.
// Knows nothing of fields, of whom an address names, of what an amount means, or of the houses.

#![tactic(auto)]

pub mod blocks;
pub mod fixed;
pub mod reader;
pub mod rows;
#[cfg(test)]
mod tests;
