// The verdict on a file's name.
ghost use Rattle.std.specs.Prelude.{◌≡◌, ◌≤◌, [], ◌∷◌, length};
ghost use Rattle.names.specs.Names.{number_of, kind_of, known, numeral, number_size, last_of, number_verdict, parts_verdict, name_verdict, NameLaw};

use crate::kinds::{FileKind, FileName, LastNumbers, NameDenial};
use text::digits;
use text::slices::same;

const EXTENSION_SIZE: usize = 4;

const PLAIN: &[u8] = b".ent";

const SIGNED: &[u8] = b".p7m";

impl NameDenial {
    // The number by which it is answered. Names do not stand on the keeper, whose trait tells such numbers.
    pub fn number(self) -> u8
        ensures { result ≡ number_of self }
    {
        self as u8
    }
}

impl LastNumbers {
    pub fn of(self, kind: FileKind) -> u16
        ensures { result ≡ last_of self kind }
    {
        match kind {
            FileKind::Payments => self.payments,
            FileKind::Returns => self.returns,
        }
    }
}

// What a name tells on a day of the year, after the last numbers used, or why it is denied.
pub fn judge_name(name: &[u8], day_of_year: u16, last: LastNumbers) -> Result<FileName, NameDenial>
    ensures verdict { result ≡ name_verdict name.now day_of_year last }
    ensures law { NameLaw }
{
    let [t0, t1, d0, d1, d2, n0, n1, n2, n3, extension @ ..] = name else {
        return Err(NameDenial::WrongLength);
    };
    if extension.len() != EXTENSION_SIZE {
        return Err(NameDenial::WrongLength);
    }
    let kind = kind_of(*t0, *t1);
    let day = numeral(&[*d0, *d1, *d2]);
    let number = numeral(&[*n0, *n1, *n2, *n3]);
    judge_parts(kind, day, number, extension, day_of_year, last)
}

// The verdict on what the parts of a name tell: the type, the day, the number and the extension, in this order.
fn judge_parts(
    kind: Option<FileKind>,
    day: Option<u16>,
    number: Option<u16>,
    extension: &[u8],
    day_of_year: u16,
    last: LastNumbers,
) -> Result<FileName, NameDenial>
    ensures { result ≡ parts_verdict kind day number extension.now day_of_year last }
{
    let kind = kind.ok_or(NameDenial::WrongType)?;
    if day != Some(day_of_year) {
        return Err(NameDenial::WrongDay);
    }
    let number = judge_number(number, last.of(kind))?;
    if !is_known(extension) {
        return Err(NameDenial::WrongExtension);
    }
    Ok(FileName { kind, number })
}

fn kind_of(t0: u8, t1: u8) -> Option<FileKind>
    ensures { result ≡ kind_of (t0 ∷ t1 ∷ []) }
{
    match (t0, t1) {
        (b'P', b'L') => Some(FileKind::Payments),
        (b'R', b'L') => Some(FileKind::Returns),
        _ => None,
    }
}

// The number that the digits of a name write; the day takes three of them, and the number of the file four.
fn numeral(bytes: &[u8]) -> Option<u16>
    requires { length bytes.now ≤ number_size }
    ensures { result ≡ numeral bytes.now }
{
    u16::try_from(digits::number(bytes)?).ok()
}

fn judge_number(told: Option<u16>, last: u16) -> Result<u16, NameDenial>
    ensures { result ≡ number_verdict told last }
{
    let number = told.ok_or(NameDenial::WrongNumber)?;
    if number == 0 || number - 1 > last {
        return Err(NameDenial::WrongNumber);
    }
    if number <= last {
        return Err(NameDenial::UsedNumber);
    }
    Ok(number)
}

fn is_known(extension: &[u8]) -> bool
    ensures { result ≡ known extension.now }
{
    same(extension, PLAIN) || same(extension, SIGNED)
}
