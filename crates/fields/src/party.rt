// Payers and payees: an account or none, and rows of name and address.
ghost use Rattle.std.specs.Prelude.{◌≡◌, Some, None};
ghost use Rattle.std.specs.Option.{option_map};
ghost use Rattle.text.specs.Rows.{rows_of};
ghost use Rattle.fields.specs.Party.{account_of, names_of, bad_row, is_latvian, bad_latvian, party_of};
ghost use Rattle.fields.specs.Lines.{later_slash};
ghost use Rattle.fields.specs.Shapes.{seen};

use crate::fault::fault_in;
use crate::letters::letter_is;
use crate::lines::{bad_account, bad_line, first_row, no_rows};
use crate::shape::Field;
use codes::accounts::is_latvian_account;
use cuts::tagged::Tagged;
use faults::{Code, Fault};
use text::rows::Rows;
use text::slices::{begins, byte};

// The most rows of name and address.
const NAME_ROWS: u64 = 4;

// The letter of a payer's field; a payee's has none.
const PAYER_LETTER: Option<u8> = Some(b'K');

// What every Latvian account number begins with.
const LATVIA: &[u8] = b"LV";

// The account that the first row has after a slash, and the rows after it.
#[derive(Clone, Copy)]
struct Split<'a> {
    account: Option<&'a [u8]>,
    names: &'a [u8],
}

fn account_and_names<'a>(bytes: &'a [u8]) -> Split<'a>
    ensures account { option_map (λ x. x.now) result.account ≡ account_of (rows_of bytes.now) }
    ensures names { rows_of result.names.now ≡ names_of (rows_of bytes.now) }
{
    let mut rows = Rows::new(bytes);
    match rows.next().and_then(|row| row.strip_prefix(b"/")) {
        Some(account) => Split {
            account: Some(account),
            names: rows.rest,
        },
        None => Split {
            account: None,
            names: bytes,
        },
    }
}

// Whether a row is bad where the party has an account, or where it has none.
fn is_bad_row(has_account: bool, n: u64, row: &[u8]) -> bool
    ensures { result ≡ bad_row has_account n row.now }
{
    match (has_account, n) {
        (true, 1) => bad_account(row),
        (true, _) => bad_line(1 + NAME_ROWS, n, row),
        (false, _) => bad_line(NAME_ROWS, n, row),
    }
}

fn is_later_slash(n: u64, row: &[u8]) -> bool
    ensures { result ≡ later_slash n row.now }
{
    n > 1 && byte(row, 0) == b'/'
}

// Whether the account says that it is Latvian.
pub fn is_latvian(account: &[u8]) -> bool
    ensures { result ≡ is_latvian account.now }
{
    begins(account, LATVIA)
}

fn is_bad_latvian(account: Option<&[u8]>) -> bool
    ensures { result ≡ bad_latvian (option_map (λ x. x.now) account.entry) }
{
    account.is_some_and(|a| is_latvian(a) && !is_latvian_account(a))
}

fn party<'a>(asked: Option<u8>, f: Tagged<'a>) -> Result<Field<'a>, Fault>
    ensures { seen result ≡ party_of asked f.entry.tag.letter f.entry.tag.number (rows_of f.entry.bytes.now) }
{
    if !letter_is(asked, f.tag.letter) {
        return Err(fault_in(f.tag, Code::F06, 1));
    }
    let Split { account, names } = account_and_names(f.bytes);
    let has_account = account.is_some();
    if let Some(row) = first_row(f.bytes, |n, row| is_bad_row(has_account, n, row)) {
        return Err(fault_in(f.tag, Code::F06, row));
    }
    if let Some(row) = first_row(f.bytes, is_later_slash) {
        return Err(fault_in(f.tag, Code::T12, row));
    }
    if no_rows(names) {
        return Err(fault_in(f.tag, Code::T13, 0));
    }
    if is_bad_latvian(account) {
        return Err(fault_in(f.tag, Code::T31, 1));
    }
    Ok(Field::Party(account, names))
}

// Field 50: the payer, with the letter K.
pub fn payer<'a>(f: Tagged<'a>) -> Result<Field<'a>, Fault>
    ensures { seen result ≡ party_of (Some 75) f.entry.tag.letter f.entry.tag.number (rows_of f.entry.bytes.now) }
{
    party(PAYER_LETTER, f)
}

// Field 59: the payee, with no letter.
pub fn payee<'a>(f: Tagged<'a>) -> Result<Field<'a>, Fault>
    ensures { seen result ≡ party_of None f.entry.tag.letter f.entry.tag.number (rows_of f.entry.bytes.now) }
{
    party(None, f)
}
