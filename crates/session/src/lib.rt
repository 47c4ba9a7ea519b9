// What a script has set up so far, and each command carried out on it: whether the command has the ground that it
// needs, and what it then leaves. Knows nothing of how a line is written or how an answer is printed.

#![tactic(auto)]

mod answer;
mod any_book;
mod opening;
mod state;

pub use answer::{BookAnswer, BookDenial};
pub use any_book::AnyBook;
pub use state::Session;
