// Amounts of money in cents: read from their characters, and written.
ghost use Rattle.std.specs.Prelude.{◌≡◌, ◌^◌, ◌<◌, ◌≤◌, cond, length, drop, Some, None, IfSome};
ghost use Rattle.std.specs.Option.{option_map};
ghost use Rattle.text.specs.Chars.{every};
ghost use Rattle.text.specs.Digits.{number};
ghost use Rattle.values.specs.Amounts.{longest, amount_mark, amount_spelled, whole_formed, part_formed, part_cents, amount_of, amount_text, writing, limit, ReadingLaw, WritingLaw};

use crate::digits::{digits, needless};
use text::chars::find;
use text::class::Class;
use text::digits::number;
use text::slices::skip;
use text::tail::Tail;

// The most cents that one message may move.
pub const LIMIT: u64 = 1_000_000_000;

// How long a written amount may be, the comma counted.
const LONGEST: usize = 15;

// How many digits may follow the comma.
const DECIMALS: usize = 2;

// How many cents are one of the currency.
const UNIT: u64 = 100;

// Before the limit's comma stand 8 digits, and with the comma and the decimals it takes 11 bytes.
const WHOLE: usize = 8;

const WRITTEN: usize = 11;

fn is_amount_mark(b: u8) -> bool
    ensures { result ≡ amount_mark b }
{
    Class::Digit.has(b) || b == b','
}

fn all_amount_marks(s: &[u8]) -> bool
    ensures { result ≡ every amount_mark s.now }
{
    s.iter().all(|b| is_amount_mark(*b))
}

// Whether the bytes are 1 to 15 digits or commas.
pub fn is_amount_spelled(s: &[u8]) -> bool
    ensures { result ≡ amount_spelled s.now }
{
    s.len() >= 1 && s.len() <= LONGEST && all_amount_marks(s)
}

// What stands before a comma, as a number: digits, at least one.
fn whole(s: &[u8]) -> Option<u64>
    requires { length s.now ≤ longest }
    ensures exact { result ≡ cond (whole_formed s.now) (Some (number s.now)) None }
    ensures small { IfSome result (λ n. n < 10 ^ longest) }
{
    if s.is_empty() {
        return None;
    }
    number(s)
}

// What the digits after a comma are worth: at most two, and nothing else.
fn part(s: &[u8]) -> Option<u64>
    ensures exact { result ≡ cond (part_formed s.now) (Some (part_cents s.now)) None }
    ensures small { IfSome result (λ n. n < 10 ^ longest) }
{
    let scale = match s.len() {
        0 => 100,
        1 => 10,
        2 => 1,
        _ => return None,
    };
    Some(number(s)? * scale)
}

// The amount in cents, as `1,` is 100 and `0,5` is 50.
pub fn amount_in_cents(s: &[u8]) -> Option<u64>
    ensures { result ≡ amount_of s.now }
{
    let comma = find(s, b',');
    if s.len() > LONGEST || comma >= s.len() {
        return None;
    }
    let (front, back) = s.split_at(comma);
    Some(whole(front)? * UNIT + part(skip(back, 1))?)
}

// An amount as it is written: the last bytes of an array, from the first that is needed.
pub type Written = Tail<WRITTEN>;

// The amount in an array, zeros in front, and where the needed digits start.
#[tactic(auto, using(crate::proofs::Writing::needless_within))]
fn lay_out(cents: u64) -> Written
    requires { cents ≤ limit }
    ensures { drop result.start result.bytes ≡ amount_text cents }
{
    let whole = digits::<WHOLE>(cents / UNIT);
    let mut bytes = [b','; WRITTEN];
    bytes[..WHOLE].copy_from_slice(&whole);
    bytes[WHOLE + 1..].copy_from_slice(&digits::<DECIMALS>(cents % UNIT));
    Tail {
        bytes,
        start: needless(&whole),
    }
}

// The amount with two decimals and no needless zero in front, for 1 cent up to the limit.
pub fn written(cents: u64) -> Option<Written>
    ensures { option_map (λ w. drop w.start w.bytes) result ≡ writing cents }
{
    if cents == 0 || cents > LIMIT {
        return None;
    }
    Some(lay_out(cents))
}

// What reading and writing amounts mean, whatever the amount.
pub fn amount_laws()
    ensures reading { ReadingLaw }
    ensures writing { WritingLaw }
{}
