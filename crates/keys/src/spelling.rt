// A number's text again.
ghost use Rattle.std.specs.Prelude.{◌≡◌};
ghost use Rattle.keys.specs.Texts.{spelled};
ghost use Rattle.keys.specs.Held.{written};

use crate::reference::REFERENCE_WIDTH;
use text::tail::Tail;

// Up to 16 characters, at the end of the array.
pub type Spelling = Tail<REFERENCE_WIDTH>;

// The characters that the number stands for: its bytes behind the zeros in front.
pub(crate) fn spell(code: u128) -> Spelling
    ensures { written result ≡ spelled code }
{
    let bytes = code.to_be_bytes();
    let start = bytes.iter().take_while(|b| **b == 0).count();
    Tail { bytes, start }
}
