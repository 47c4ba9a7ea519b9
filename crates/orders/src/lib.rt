// The order in which the fields of a message stand: slots for tags, some of which may stay empty, and a walk over a text's fields
// that fills them. Knows nothing of what a field holds.

#![tactic(auto)]

mod reading;
mod slot;
mod tags;
mod walk;

pub use slot::{Lettering, Slot};
pub use walk::Walk;
