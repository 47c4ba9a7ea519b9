// Fields of rows: the remittance, and the reason of a return.
ghost use Rattle.std.specs.Prelude.{◌≡◌};
ghost use Rattle.text.specs.Rows.{rows_of};
ghost use Rattle.fields.specs.Run.{run_row, remittance_of, is_reason_code, reason_of};
ghost use Rattle.fields.specs.Shapes.{seen};

use crate::fault::fault_in;
use crate::lines::{bad_line, first_row, no_rows};
use crate::shape::Field;
use cuts::tagged::Tagged;
use faults::{Code, Fault};
use text::class::Class;
use text::rows::Rows;

// The most rows of a remittance and of a reason.
const REMITTANCE_ROWS: u64 = 4;

const REASON_ROWS: u64 = 6;

// How a reason's first row begins.
const REJECT: &[u8] = b"/REJECT/";

// The row at fault where there may be 1 to so many.
fn run_row(most: u64, bytes: &[u8]) -> Option<u64>
    ensures { result ≡ run_row most (rows_of bytes.now) }
{
    if no_rows(bytes) {
        return Some(1);
    }
    first_row(bytes, |n, row| bad_line(most, n, row))
}

// Field 70: the remittance.
pub fn remittance<'a>(f: Tagged<'a>) -> Result<Field<'a>, Fault>
    ensures { seen result ≡ remittance_of f.entry.tag.number (rows_of f.entry.bytes.now) }
{
    if let Some(row) = run_row(REMITTANCE_ROWS, f.bytes) {
        return Err(fault_in(f.tag, Code::F06, row));
    }
    Ok(Field::Rows(f.bytes))
}

fn is_reason_code(s: &[u8]) -> bool
    ensures { result ≡ is_reason_code s.now }
{
    match s {
        [letter, tens, ones] => {
            Class::Capital.has(*letter) && Class::Digit.has(*tens) && Class::Digit.has(*ones)
        }
        _ => false,
    }
}

// Field 72: the reason of a return.
pub fn reason<'a>(f: Tagged<'a>) -> Result<Field<'a>, Fault>
    ensures { seen result ≡ reason_of f.entry.tag.number (rows_of f.entry.bytes.now) }
{
    if let Some(row) = run_row(REASON_ROWS, f.bytes) {
        return Err(fault_in(f.tag, Code::F06, row));
    }
    let first = Rows::new(f.bytes).next().unwrap_or(b"");
    let code = first
        .strip_prefix(REJECT)
        .ok_or(fault_in(f.tag, Code::T27, 0))?;
    if !is_reason_code(code) {
        return Err(fault_in(f.tag, Code::T28, 0));
    }
    Ok(Field::Rows(f.bytes))
}
