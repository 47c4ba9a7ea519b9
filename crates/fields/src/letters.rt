// The letter of a tag.
ghost use Rattle.std.specs.Prelude.{◌≡◌};
ghost use Rattle.fields.specs.Letters.{letter_is};

// Whether the letter is the one asked for, or there is none and none is asked for: `==`, by the word that the rules have for it.
pub fn letter_is(asked: Option<u8>, letter: Option<u8>) -> bool
    ensures { result ≡ letter_is asked letter }
{
    letter == asked
}
