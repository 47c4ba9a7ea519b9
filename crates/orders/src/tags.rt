// Which tags fit a slot.
ghost use Rattle.std.specs.Prelude.{◌≡◌};
ghost use Rattle.orders.specs.Orders.{fits, lettered};

use crate::slot::{Lettering, Slot};
use text::tag::Tag;

fn is_lettered(letter: Lettering, found: Option<u8>) -> bool
    ensures { result ≡ lettered letter found }
{
    match letter {
        Lettering::Any => true,
        Lettering::Bare => found.is_none(),
        Lettering::Letter(asked) => found == Some(asked),
    }
}

impl Slot {
    pub(crate) fn takes(self, tag: Tag) -> bool
        ensures { result ≡ fits self tag }
    {
        tag.number == self.number && is_lettered(self.letter, tag.letter)
    }
}
