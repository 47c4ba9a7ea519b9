// The rows of a text, one by one.
ghost use Rattle.std.specs.Prelude.{◌≡◌, slice_index};
ghost use Rattle.text.specs.Rows.{is_cr_lf, crlf};

use crate::slices::{front, skip};

// The two bytes that end a row, and how many they are.
const CR: u8 = 0x0D;

const LF: u8 = 0x0A;

pub const CR_LF: usize = 2;

// Whether a row ends here.
pub(crate) fn is_crlf(s: &[u8]) -> bool
    ensures { result ≡ is_cr_lf (slice_index s.now 0) (slice_index s.now 1) }
{
    matches!(s, [CR, LF, ..])
}

// Where the first CrLf stands, or the length, so that a caller may cut there.
pub fn find_crlf(s: &[u8]) -> usize
    ensures { result ≡ crlf s.now }
{
    s.windows(2).position(is_crlf).unwrap_or(s.len())
}

// The rows that are still to come.
#[derive(Drop)]
pub struct Rows<'a> {
    pub rest: &'a [u8],
}

impl<'a> Rows<'a> {
    pub fn new(text: &'a [u8]) -> Rows<'a>
        ensures { result.rest.now ≡ text.now }
    {
        Rows { rest: text }
    }
}

impl<'a> Iterator for Rows<'a> {
    ghost use Rattle.std.specs.Prelude.{length};
    ghost use Rattle.std.specs.Iterator.{at_most};
    ghost use Rattle.text.specs.Texts.{GivesRow};

    type Item = &'a [u8];

    ghost next_gives = { GivesRow };

    ghost remaining = { λ s. at_most (length s.rest.now) };

    // The next row, without its CrLf. Where all rows are formed, those still to come are.
    fn next(&mut self) -> Option<&'a [u8]> {
        let rest = self.rest;
        if rest.is_empty() {
            return None;
        }
        let k = find_crlf(rest);
        self.rest = skip(skip(rest, k), CR_LF);
        Some(front(rest, k))
    }
}
