// Fields of one row: references, the operation, the instruction, a bank, the charges.
ghost use Rattle.std.specs.Prelude.{◌≡◌, ℕ, Bool, List};
ghost use Rattle.codes.specs.Instructions.{instruction_ok};
ghost use Rattle.text.specs.Reference.{is_reference};
ghost use Rattle.text.specs.Rows.{rows_of};
ghost use Rattle.fields.specs.Shapes.{seen};
ghost use Rattle.fields.specs.Single.{single, is_operation, is_charge, bank_of};
ghost use Rattle.fields.specs.Tests.{Tests};

use crate::fault::fault_in;
use crate::letters::letter_is;
use crate::lone::lone;
use crate::shape::Field;
use codes::bics::is_bic;
use codes::instructions::is_instruction;
use cuts::tagged::Tagged;
use faults::{Code, Fault};
use text::reference::is_reference;
use text::slices::same;

// The only operation.
const CREDIT: &[u8] = b"CRED";

// The letter of a bank's field.
const BANK_LETTER: Option<u8> = Some(b'A');

// Charges borne by the payer, by both, by the payee.
const OUR: &[u8] = b"OUR";

const SHARED: &[u8] = b"SHA";

const BENEFICIARY: &[u8] = b"BEN";

// A field of one row that passes the test.
fn single<'a, F: Fn(&[u8]) -> bool>(f: Tagged<'a>, passes: F) -> Result<Field<'a>, Fault>
    ghost test: { List ℕ → Bool }
    requires callable { F.IsAlwaysCallable passes }
    requires tests { Tests F.Fn test passes }
    ensures { seen result ≡ single test f.entry.tag.number (rows_of f.entry.bytes.now) }
{
    lone(f.bytes, passes)
        .map(Field::Row)
        .map_err(|row| fault_in(f.tag, Code::F06, row))
}

// Fields 20 and 21: a reference.
pub fn reference<'a>(f: Tagged<'a>) -> Result<Field<'a>, Fault>
    ensures { seen result ≡ single is_reference f.entry.tag.number (rows_of f.entry.bytes.now) }
{
    single(f, is_reference)
}

fn is_operation(row: &[u8]) -> bool
    ensures { result ≡ is_operation row.now }
{
    same(row, CREDIT)
}

// Field 23B: the operation.
pub fn operation<'a>(f: Tagged<'a>) -> Result<Field<'a>, Fault>
    ensures { seen result ≡ single is_operation f.entry.tag.number (rows_of f.entry.bytes.now) }
{
    single(f, is_operation)
}

// Field 23E: an instruction.
pub fn instruction<'a>(f: Tagged<'a>) -> Result<Field<'a>, Fault>
    ensures { seen result ≡ single instruction_ok f.entry.tag.number (rows_of f.entry.bytes.now) }
{
    single(f, is_instruction)
}

// Fields 57 and 58: a bank, with the letter A.
pub fn bank<'a>(f: Tagged<'a>) -> Result<Field<'a>, Fault>
    ensures { seen result ≡ bank_of f.entry.tag.letter f.entry.tag.number (rows_of f.entry.bytes.now) }
{
    if !letter_is(BANK_LETTER, f.tag.letter) {
        return Err(fault_in(f.tag, Code::F07, 1));
    }
    let row = lone(f.bytes, is_bic).map_err(|row| fault_in(f.tag, Code::F07, row))?;
    Ok(Field::Bic(row))
}

fn is_charge(row: &[u8]) -> bool
    ensures { result ≡ is_charge row.now }
{
    same(row, OUR) || same(row, SHARED) || same(row, BENEFICIARY)
}

// Field 71A: the charges.
pub fn charges<'a>(f: Tagged<'a>) -> Result<Field<'a>, Fault>
    ensures { seen result ≡ single is_charge f.entry.tag.number (rows_of f.entry.bytes.now) }
{
    single(f, is_charge)
}
