// The settlement of the payments that wait: selections of them, the houses' positions, what the covers admit, and the morning's
// way to the greatest selection, over any keeper. Knows payments by sender, receiver and amount, and nothing of files or phases.

#![tactic(auto)]

mod laws;
mod positions;
mod selecting;
mod settle;

pub use laws::laws_stand;
pub use positions::position;
pub use settle::{offer_all, settle_morning};
