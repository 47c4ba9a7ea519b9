// The value of a payment: its date, its currency and its amount, in one row.
ghost use Rattle.std.specs.Prelude.{◌≡◌};
ghost use Rattle.text.specs.Rows.{rows_of};
ghost use Rattle.fields.specs.Shapes.{seen};
ghost use Rattle.fields.specs.Value.{date_in, currency_in, amount_in, is_value, value_of, counted_of};

use crate::fault::fault_in;
use crate::lone::lone;
use crate::shape::Field;
use crate::terms::Terms;
use cuts::tagged::Tagged;
use faults::{Code, Fault};
use text::class::Class;
use text::slices::{front, same, skip};
use values::amounts::{LIMIT, amount_in_cents, is_amount_spelled};

// How many bytes the date and the currency take; the amount follows them.
const DATE: usize = 6;

const CURRENCY: usize = 3;

fn date_in<'a>(row: &'a [u8]) -> &'a [u8]
    ensures { result.now ≡ date_in row.now }
{
    front(row, DATE)
}

fn currency_in<'a>(row: &'a [u8]) -> &'a [u8]
    ensures { result.now ≡ currency_in row.now }
{
    front(skip(row, DATE), CURRENCY)
}

fn amount_in<'a>(row: &'a [u8]) -> &'a [u8]
    ensures { result.now ≡ amount_in row.now }
{
    skip(row, DATE + CURRENCY)
}

fn is_value(row: &[u8]) -> bool
    ensures { result ≡ is_value row.now }
{
    Class::Digit.has_all(date_in(row))
        && Class::Capital.has_all(currency_in(row))
        && is_amount_spelled(amount_in(row))
}

// Field 32A: the value, at the day's terms.
pub fn value<'a>(f: Tagged<'a>, terms: Terms) -> Result<Field<'a>, Fault>
    ensures { seen result ≡ value_of terms f.entry.tag.number (rows_of f.entry.bytes.now) }
{
    let row = lone(f.bytes, is_value).map_err(|row| fault_in(f.tag, Code::F06, row))?;
    if !same(date_in(row), &terms.day) {
        return Err(fault_in(f.tag, Code::T09, 0));
    }
    if !same(currency_in(row), &terms.currency) {
        return Err(fault_in(f.tag, Code::T10, 0));
    }
    let cents = amount_in_cents(amount_in(row))
        .filter(|c| *c != 0)
        .ok_or(fault_in(f.tag, Code::T11, 0))?;
    if cents > LIMIT {
        return Err(fault_in(f.tag, Code::T29, 0));
    }
    Ok(Field::Row(row))
}

// What a row counts in its file's sum: its amount whatever the date, the currency and the limit, or nothing.
pub fn counted(row: &[u8]) -> u64
    ensures { result ≡ counted_of row.now }
{
    if !is_value(row) {
        return 0;
    }
    amount_in_cents(amount_in(row)).unwrap_or(0)
}
