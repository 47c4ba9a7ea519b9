// A field that should have one row.
ghost use Rattle.std.specs.Prelude.{◌≡◌, ℕ, Bool, [], List, Some, None, slice_index_or};
ghost use Rattle.text.specs.Rows.{rows_of};
ghost use Rattle.fields.specs.Single.{lone};
ghost use Rattle.fields.specs.Tests.{Tests};

use crate::lines::no_rows;
use text::rows::Rows;

// The only row, if it passes the test; else the number of the row at fault.
pub(crate) fn lone<'a, F: Fn(&[u8]) -> bool>(bytes: &'a [u8], passes: F) -> Result<&'a [u8], u64>
    ghost test: { List ℕ → Bool }
    requires callable { F.IsAlwaysCallable passes }
    requires tests { Tests F.Fn test passes }
    ensures { elim result [ Ok row ↦ (lone test (rows_of bytes.now) ≡ None) × (row.now ≡ slice_index_or (rows_of bytes.now) 0 []) | Err n ↦ lone test (rows_of bytes.now) ≡ Some n ] }
{
    let mut rows = Rows::new(bytes);
    let row = rows.next().unwrap_or(b"");
    if !passes(row) {
        return Err(1);
    }
    if no_rows(rows.rest) { Ok(row) } else { Err(2) }
}
