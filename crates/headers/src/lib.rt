// The header of a message: its blocks, and the checks of its sender, its type and its receiver against the houses.
// Knows nothing of fields and of the kinds of message.

#![tactic(auto)]

mod header;
mod sender;

pub use header::Header;
pub use sender::Sender;
