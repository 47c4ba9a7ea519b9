// The number that decimal digits write.
ghost use Rattle.std.specs.Prelude.{◌≡◌};
ghost use Rattle.text.specs.Digits.{number_of};

use crate::class::Class;

// The number, with zeros in front or none; no digits write 0. None where a byte is no digit, or where the number takes more than 64 bits.
pub fn number(s: &[u8]) -> Option<u64>
    ensures { result ≡ number_of s.now }
{
    let mut n: u64 = 0;
    for b in s {
        if !Class::Digit.has(*b) {
            return None;
        }
        n = n.checked_mul(10)?.checked_add((*b - b'0') as u64)?;
    }
    Some(n)
}
