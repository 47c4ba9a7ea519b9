// Latvian account numbers.
ghost use Rattle.std.specs.Prelude.{◌≡◌, ◌%◌};
ghost use Rattle.codes.specs.Accounts.{char_value, char_scale, written_after, divisor, bank_of, account_formed, account_number, account_ok, SpellingLaw};

use text::class::Class;
use text::slices::{begins, front, skip};

// Where the bank and the rest begin, how long the bank's part is and how long a number is.
const BANK: usize = 4;

const BANK_LENGTH: usize = 4;

const REST: usize = 8;

const LENGTH: usize = 21;

// What a number is divided by, and what must remain.
const DIVISOR: u32 = 97;

const REMAINDER: u32 = 1;

// What A's byte is above A's value, which is 10.
const LETTERS: u8 = 55;

fn char_value(b: u8) -> u32
    ensures { result ≡ char_value b }
{
    if Class::Digit.has(b) {
        (b - b'0') as u32
    } else {
        b.saturating_sub(LETTERS) as u32
    }
}

fn char_scale(b: u8) -> u32
    ensures { result ≡ char_scale b }
{
    if Class::Digit.has(b) { 10 } else { 100 }
}

// The remainder of the number that `start` and then the bytes write.
fn remainder(start: u32, s: &[u8]) -> u32
    ensures { result ≡ written_after start s.now % divisor }
{
    let mut r = start % DIVISOR;
    for b in s {
        r = (r * char_scale(*b) + char_value(*b)) % DIVISOR;
    }
    r
}

// The characters of an account that name its bank.
pub fn bank_of<'a>(s: &'a [u8]) -> &'a [u8]
    ensures { result.now ≡ bank_of s.now }
{
    front(skip(s, BANK), BANK_LENGTH)
}

fn is_formed(s: &[u8]) -> bool
    ensures { result ≡ account_formed s.now }
{
    s.len() == LENGTH
        && begins(s, b"LV")
        && Class::Digit.has_all(front(skip(s, 2), 2))
        && Class::Capital.has_all(bank_of(s))
        && Class::Alphanumeric.has_all(skip(s, REST))
}

// The remainder of an account's number, its first four characters read last.
fn account_remainder(s: &[u8]) -> u32
    ensures { result ≡ account_number s.now % divisor }
{
    let moved = remainder(0, skip(s, BANK));
    remainder(moved, front(s, BANK))
}

// Whether the bytes are a Latvian account number that its two check digits fit.
pub fn is_latvian_account(s: &[u8]) -> bool
    ensures { result ≡ account_ok s.now }
{
    is_formed(s) && account_remainder(s) == REMAINDER
}

// What the number of an account means: the digits of its spelling, as one number.
pub fn account_laws()
    ensures { SpellingLaw }
{}
