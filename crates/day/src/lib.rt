// One settlement day over the caller's records: its phases, the house it remembers, and the calls that calculate, settle and exclude, above any keeper.
// Every store into the records stands in `ledger`. Knows nothing of how a message is written, nor of any particular book.

#![tactic(auto)]

mod answer;
mod calculating;
mod day;
mod excluding;
mod ledger;
mod numbers;
mod phase;
mod questions;
mod settling;

pub use answer::{
    CalculateAnswer, CalculateDenial, ExcludeAnswer, ExcludeDenial, PositionAnswer, PositionDenial,
    SettleAnswer, SettleDenial,
};
pub use day::Day;
pub use phase::Phase;
