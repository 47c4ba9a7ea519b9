// The rows of a content as CrLf cuts it, and the row that tells its amount.
ghost use Rattle.std.specs.Prelude.{◌≡◌, length, Some, None};
ghost use Rattle.std.specs.Iterator.{YieldsFirstBy, at_most};
ghost use Rattle.frames.specs.Rows.{ended_rows, amount_row, RowsLaw};

use crate::fixed::AMOUNT_TAG;
use text::rows::{CR_LF, find_crlf};
use text::slices::{begins, skip};

// The first row ended by CrLf that begins with the amount's tag, without its CrLf.
pub fn amount_row<'a>(content: &'a [u8]) -> Option<&'a [u8]>
    ensures told { amount_row content.now ≡ elim result [ None ↦ None | Some row ↦ Some row.now ] }
    ensures law { RowsLaw }
{
    EndedRows { rest: content }.find(|row| begins(row, AMOUNT_TAG))
}

// The rows that are still to come, without those that no CrLf ends.
#[derive(Drop)]
struct EndedRows<'a> {
    rest: &'a [u8],
}

impl<'a> Iterator for EndedRows<'a> {
    type Item = &'a [u8];

    ghost next_gives = { YieldsFirstBy (λ row. row.now) (λ s. ended_rows s.rest.now) };

    ghost remaining = { λ s. at_most (length s.rest.now) };

    #[tactic(auto, using(crate::proofs::Rowing::row_none, crate::proofs::Rowing::row_some))]
    fn next(&mut self) -> Option<&'a [u8]> {
        let size = find_crlf(self.rest);
        if size >= self.rest.len() {
            return None;
        }
        let (row, ending) = self.rest.split_at(size);
        self.rest = skip(ending, CR_LF);
        Some(row)
    }
}
