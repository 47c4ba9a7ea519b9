// The first row of a field that fails a check.
ghost use Rattle.std.specs.Prelude.{◌≡◌, ℕ, Bool, List, length, ◌==◌};
ghost use Rattle.text.specs.Rows.{rows_of};
ghost use Rattle.fields.specs.Lines.{bad_line, bad_account, first_row};
ghost use Rattle.fields.specs.Tests.{TestsNumbered};

use text::rows::Rows;

// The most characters of a row.
const WIDEST: usize = 35;

// A row that is one too many, empty or too long.
pub(crate) fn bad_line(most: u64, n: u64, row: &[u8]) -> bool
    ensures { result ≡ bad_line most n row.now }
{
    n > most || row.len() < 1 || row.len() > WIDEST
}

// A slash with no account after it, or with too long a one.
pub(crate) fn bad_account(row: &[u8]) -> bool
    ensures { result ≡ bad_account row.now }
{
    row.len() < 2 || row.len() > WIDEST
}

// The number of the first row that fails the check: it is sought, so that none is no failure.
pub(crate) fn first_row<F: Fn(u64, &[u8]) -> bool>(bytes: &[u8], fails: F) -> Option<u64>
    ghost bad: { ℕ → List ℕ → Bool }
    requires callable { F.IsAlwaysCallable fails }
    requires tests { TestsNumbered F.Fn bad fails }
    ensures { result ≡ first_row bad 1 (rows_of bytes.now) }
{
    for (n, row) in (1..).zip(Rows::new(bytes)) {
        if fails(n, row) {
            return Some(n);
        }
    }
    None
}

// Whether there is no row.
pub(crate) fn no_rows(bytes: &[u8]) -> bool
    ensures { result ≡ (length (rows_of bytes.now) == 0) }
{
    bytes.is_empty()
}
