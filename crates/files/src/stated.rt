// The row of a control message that states count, currency and total.
ghost use Rattle.std.specs.Prelude.{◌≡◌, true};
ghost use Rattle.text.specs.Chars.{belongs, every};
ghost use Rattle.text.specs.declared.class.Class.TheVariants.{Digit};
ghost use Rattle.text.specs.Rows.{rows_of};
ghost use Rattle.files.specs.Stated.{count_of, stated_of, stated_by};

use crate::control::Control;
use text::class::Class;
use text::digits::number;
use text::rows::Rows;
use text::slices::{begins, front, skip};
use values::amounts::amount_in_cents;
use values::currency::Currency;

// The most digits of a count.
const COUNT_DIGITS: usize = 3;

// The number that one, two or three digits write.
#[tactic(auto, using(text::proofs::Numbers::number_read))]
fn count_of(digits: &[u8]) -> Option<usize>
    requires { every (belongs Digit) digits.now ≡ true }
    ensures { result ≡ count_of digits.now }
{
    if digits.is_empty() || digits.len() > COUNT_DIGITS {
        return None;
    }
    Some(number(digits)? as usize)
}

// All the digits in front are the count; then the currency's letters; then an amount, which may be 0.
fn stated_in(row: &[u8], currency: Currency) -> Option<Control>
    ensures { result ≡ stated_of row.now currency }
{
    let size = Class::Digit.run(row);
    let rest = skip(row, size);
    let letters = currency.letters();
    if !begins(rest, &letters) {
        return None;
    }
    Some(Control {
        count: count_of(front(row, size))?,
        total: amount_in_cents(skip(rest, letters.len()))?,
    })
}

// What the only row of a field states; where there are more rows than one, nothing. The test of a lone row in fields tells which row is
// at fault, which nobody asks here.
pub(crate) fn only_row_states(bytes: &[u8], currency: Currency) -> Option<Control>
    ensures { result ≡ stated_by (rows_of bytes.now) currency }
{
    let mut rows = Rows::new(bytes);
    let row = rows.next()?;
    if rows.next().is_some() {
        return None;
    }
    stated_in(row, currency)
}
