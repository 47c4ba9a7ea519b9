// Whether a text is formed: rows of permitted characters, each ended by CrLf, each tag well written.
ghost use Rattle.std.specs.Prelude.{◌≡◌};
ghost use Rattle.text.specs.Texts.{begun, formed, TextLaw};

use crate::class::Class;
use crate::rows::{CR_LF, is_crlf};
use crate::slices::{byte, front, skip};
use crate::tags::is_tag;

// Whether the row is there and begins as a row may.
fn is_begun(row: &[u8]) -> bool
    ensures { result ≡ begun row.now }
{
    match row {
        [] | [b'-', ..] => false,
        [b':', ..] => is_tag(row),
        _ => true,
    }
}

// Besides the answer: a text that is formed is its rows, and no others, written one after another.
pub fn is_formed(text: &[u8]) -> bool
    ensures test { result ≡ formed text.now }
    ensures law { TextLaw }
{
    if byte(text, 0) != b':' {
        return false;
    }
    // one walk: `Rows` would seek the row's end first, and its characters be looked at again
    let mut rest = text;
    while !rest.is_empty() {
        let k = Class::Permitted.run(rest);
        let after = skip(rest, k);
        if !is_crlf(after) {
            return false;
        }
        if !is_begun(front(rest, k)) {
            return false;
        }
        rest = skip(after, CR_LF);
    }
    true
}
