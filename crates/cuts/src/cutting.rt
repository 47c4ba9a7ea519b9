// Cutting a text into its fields.
ghost use Rattle.std.specs.Prelude.{◌≡◌, ◌≤◌, true, [], length, if◌then◌else◌};
ghost use Rattle.std.specs.Iterator.{at_most};
ghost use Rattle.text.specs.Rows.{rows_of};
ghost use Rattle.text.specs.Texts.{good, formed};
ghost use Rattle.cuts.specs.Cuts.{tagged, FieldLaw};
ghost use Rattle.cuts.specs.Fields.{GivesField};

use crate::tagged::{Fields, Tagged};
use text::form::is_formed;
use text::rows::Rows;
use text::slices::{front, skip};
use text::tags::{is_tag, tag_of};

// What is left of the text from its first tag on.
fn from_tag<'a>(text: &'a [u8]) -> &'a [u8]
    ensures rows { rows_of result.now ≡ tagged (rows_of text.now) }
    ensures formed { good text.now ≡ true → good result.now ≡ true }
    ensures shorter { length result.now ≤ length text.now }
{
    let mut rows = Rows::new(text);
    while !is_tag(rows.rest) && rows.next().is_some() {}
    rows.rest
}

impl<'a> Fields<'a> {
    // The fields of the text: it has some if it is formed, and none if it is not.
    pub fn of(text: &'a [u8]) -> Fields<'a>
        ensures all { result.rest.now ≡ (if formed text.now then text.now else []) }
        ensures law { FieldLaw }
    {
        if !is_formed(text) {
            return Fields {
                rest: front(text, 0),
            };
        }
        Fields { rest: text }
    }
}

impl<'a> Iterator for Fields<'a> {
    type Item = Tagged<'a>;

    ghost next_gives = { GivesField };

    ghost remaining = { λ s. at_most (length s.rest.now) };

    // The next field: what is left is its tag as it is written, its bytes, and what is left then.
    fn next(&mut self) -> Option<Tagged<'a>> {
        let rest = self.rest;
        let mut rows = Rows::new(rest);
        let row = rows.next()?;
        let tag = tag_of(row)?;
        let after = from_tag(rows.rest);
        self.rest = after;
        Some(Tagged {
            tag,
            bytes: skip(front(rest, rest.len() - after.len()), tag.size()),
        })
    }
}
