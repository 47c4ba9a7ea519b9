// A reference with its sender.
use crate::reference::Reference;

// A reference, and the place of the house that gave it: two houses may give the same. Keys are ordered by reference first.
#[derive(Clone, Copy, PartialEq, Eq, PartialOrd, Ord)]
pub struct ReferenceKey {
    pub reference: Reference,
    pub sender: u8,
}
