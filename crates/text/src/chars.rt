// Tests of single characters, of all characters of a part, and where a character first stands.
ghost use Rattle.std.specs.Prelude.{◌≡◌};
ghost use Rattle.text.specs.Chars.{belongs, digit, capital, mark, every, place, leading};

use crate::class::Class;

impl Class {
    pub fn has(self, b: u8) -> bool
        ensures { result ≡ belongs self b }
    {
        match self {
            Class::Digit => is_digit(b),
            Class::Capital => is_capital(b),
            Class::Alphanumeric => is_capital(b) || is_digit(b),
            Class::Permitted => is_capital(b) || is_digit(b) || is_mark(b),
        }
    }

    // Whether every byte is of the class.
    pub fn has_all(self, s: &[u8]) -> bool
        ensures { result ≡ every (belongs self) s.now }
    {
        s.iter().all(|b| self.has(*b))
    }

    // How many bytes of the class stand before the first that is not of it.
    pub fn run(self, s: &[u8]) -> usize
        ensures { result ≡ leading (belongs self) s.now }
    {
        s.iter().take_while(|b| self.has(**b)).count()
    }
}

fn is_digit(b: u8) -> bool
    ensures { result ≡ digit b }
{
    b.is_ascii_digit()
}

fn is_capital(b: u8) -> bool
    ensures { result ≡ capital b }
{
    b.is_ascii_uppercase()
}

fn is_mark(b: u8) -> bool
    ensures { result ≡ mark b }
{
    matches!(
        b,
        b' ' | b'/' | b'-' | b'?' | b':' | b'(' | b')' | b'.' | b',' | b'\'' | b'+'
    )
}

// Where the byte first stands, or the length, so that a caller may cut there.
pub fn find(s: &[u8], sought: u8) -> usize
    ensures { result ≡ place sought s.now }
{
    s.iter().position(|b| *b == sought).unwrap_or(s.len())
}
