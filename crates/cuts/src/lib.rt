// A text cut into its fields: each tag's row begins one, which goes on to the next tag.
// Knows nothing of what a field must hold, or in which order fields stand.

#![tactic(auto)]

pub mod cutting;
pub mod tagged;
#[cfg(test)]
mod tests;
