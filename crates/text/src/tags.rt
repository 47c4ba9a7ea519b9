// Reading the tag that a row begins with.
ghost use Rattle.std.specs.Prelude.{◌≡◌};
ghost use Rattle.text.specs.Tags.{is_tag, tag_of, tag_size, TagLaw};

use crate::class::Class;
use crate::tag::Tag;

pub fn is_tag(row: &[u8]) -> bool
    ensures { result ≡ is_tag row.now }
{
    tag_of(row).is_some()
}

// The tag at the start of the row, or none. A tag that is read is the one that is written there.
#[tactic(auto, using(crate::proofs::TagTexts::tag_law))]
pub fn tag_of(row: &[u8]) -> Option<Tag>
    ensures tag { result ≡ tag_of row.now }
    ensures law { TagLaw }
{
    let (tens, ones, letter) = match *row {
        [b':', tens, ones, b':', ..] => (tens, ones, None),
        [b':', tens, ones, letter, b':', ..] if Class::Capital.has(letter) => (
            tens,
            ones,
            Some(letter),
        ),
        _ => return None,
    };
    if !Class::Digit.has(tens) || !Class::Digit.has(ones) {
        return None;
    }
    Some(Tag {
        number: 10 * (tens - b'0') + (ones - b'0'),
        letter,
    })
}

impl Tag {
    // How many bytes the tag takes, with both colons.
    pub fn size(self) -> usize
        ensures { result ≡ tag_size self }
    {
        match self.letter {
            None => 4,
            Some(_) => 5,
        }
    }
}
