// The ordered index: the numbers of items that lie in a slice of the caller's, in strictly rising order of the items' keys.
// It is written once, for any key whose order tells each two keys apart. It holds no key and no item, and does not know what they are.
// No map stands in its place: the items lie in the caller's slice, and after the opening nothing is allocated, as a map would.

#![tactic(auto)]

mod keys;
mod numbers;

pub use keys::{Key, Keyed};
pub use numbers::Index;
