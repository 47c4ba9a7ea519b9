// A day over the caller's records.
use crate::ledger::Ledger;
use crate::phase::Phase;

#[derive(Drop)]
pub struct Day<'a> {
    pub(crate) ledger: Ledger<'a>,
    pub(crate) phase: Phase,
    // the house that the latest settlement of the afternoon named short, until it is excluded
    pub(crate) remembered: Option<usize>,
}
