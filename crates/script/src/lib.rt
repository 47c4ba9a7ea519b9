// The language of the program's scripts: from the bytes of a line to the command that it means, or to the reason
// why it means none. Knows the names and the shapes of the commands; knows nothing of how one is carried out, of
// books or of days.

#![tactic(auto)]

pub mod command;
mod names;
mod numbers;
pub mod read;
mod said;
mod spelling;
mod why;
mod words;
