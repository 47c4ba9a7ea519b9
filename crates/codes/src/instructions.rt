// Instructions: a code, and a text after some.
ghost use Rattle.std.specs.Prelude.{◌≡◌};
ghost use Rattle.codes.specs.Instructions.{goes_on, allows, instruction_ok, holds};

use crate::entry::Entry;
use text::class::Class;
use text::slices::{begins, byte, skip};

// How long a code is, and the text after it and its slash may be.
const CODE: usize = 4;

const LONGEST_TEXT: usize = 30;

// Each code, with whether more text may follow it.
const TABLE: [Entry; 12] = [
    Entry {
        code: *b"CHQB",
        more: false,
    },
    Entry {
        code: *b"CORT",
        more: false,
    },
    Entry {
        code: *b"HOLD",
        more: true,
    },
    Entry {
        code: *b"INTC",
        more: false,
    },
    Entry {
        code: *b"PHON",
        more: true,
    },
    Entry {
        code: *b"PHOB",
        more: true,
    },
    Entry {
        code: *b"PHOI",
        more: true,
    },
    Entry {
        code: *b"REPA",
        more: true,
    },
    Entry {
        code: *b"SDVA",
        more: false,
    },
    Entry {
        code: *b"TELE",
        more: true,
    },
    Entry {
        code: *b"TELB",
        more: true,
    },
    Entry {
        code: *b"TELI",
        more: true,
    },
];

// Whether after the code come a slash and 1 to 30 permitted characters.
fn goes_on(s: &[u8]) -> bool
    ensures { result ≡ goes_on s.now }
{
    let text = skip(s, CODE + 1);
    byte(s, CODE) == b'/'
        && !text.is_empty()
        && text.len() <= LONGEST_TEXT
        && Class::Permitted.has_all(text)
}

impl Entry {
    // Whether the bytes are the entry's code alone, or go on where they may.
    fn allows(&self, s: &[u8]) -> bool
        ensures { result ≡ allows s.now self.now }
    {
        begins(s, &self.code) && (s.len() == CODE || self.more && goes_on(s))
    }
}

// Whether the bytes are an instruction of the table.
pub fn is_instruction(s: &[u8]) -> bool
    ensures { result ≡ instruction_ok s.now }
{
    TABLE.iter().any(|e| e.allows(s))
}

// Whether they are an instruction to hold the money for the payee, with or without more text.
pub fn is_hold(s: &[u8]) -> bool
    ensures { result ≡ holds s.now }
{
    is_instruction(s) && begins(s, b"HOLD")
}
