// The amount that a message counts with, whatever else it says.
ghost use Rattle.std.specs.Prelude.{◌≡◌};
ghost use Rattle.files.specs.Amounts.{counted_amount};

use fields::value::counted;
use frames::fixed::AMOUNT_TAG;
use frames::rows::amount_row;
use text::slices::skip;

// The counted amount of a frame's content: what its first row with the amount's tag counts, good or bad, or 0 where it has none.
pub fn counted_amount(content: &[u8]) -> u64
    ensures { result ≡ counted_amount content.now }
{
    amount_row(content).map_or(0, |row| counted(skip(row, AMOUNT_TAG.len())))
}
