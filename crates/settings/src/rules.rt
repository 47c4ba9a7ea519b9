// The rules of opening that concern the houses.
ghost use Rattle.std.specs.Prelude.{◌≡◌, not};
ghost use Rattle.keys.specs.Held.{bic_text};
ghost use Rattle.settings.specs.Rules.{among, entry_text, bic_kept, bics_kept, houses_kept};

use crate::opening::HouseEntry;
use keys::Bic;

// How many houses there may be.
const HOUSE_LIMIT: usize = 64;

// Whether none of the houses has the BIC.
fn is_new(bic: Bic, entries: &[HouseEntry]) -> bool
    ensures { result ≡ not (among (bic_text bic) entries.now) }
{
    !entries.iter().any(|entry| bic.is_written_as(entry.bic))
}

// Whether a house's BIC is formed, and no later house has it.
fn is_bic_kept(entry: &HouseEntry, later: &[HouseEntry]) -> bool
    ensures { result ≡ bic_kept (entry_text entry.now) later.now }
{
    // a match, since a proof learns nothing of what a closure that captures a slice of entries answers
    match Bic::read(entry.bic) {
        Some(bic) => is_new(bic, later),
        None => false,
    }
}

// Whether that holds of every house.
fn are_bics_kept(entries: &[HouseEntry]) -> bool
    ensures { result ≡ bics_kept entries.now }
{
    // no `while let` over `split_first`, whose branches join where the rest differs: that is not covered
    for (i, entry) in entries.iter().enumerate() {
        if !is_bic_kept(entry, &entries[i + 1..]) {
            return false;
        }
    }
    true
}

// Whether the houses keep the rules of opening.
pub(crate) fn are_houses_kept(clearing: Bic, entries: &[HouseEntry]) -> bool
    ensures { result ≡ houses_kept (bic_text clearing) entries.now }
{
    (1..=HOUSE_LIMIT).contains(&entries.len())
        && are_bics_kept(entries)
        && is_new(clearing, entries)
}
