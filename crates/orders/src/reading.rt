// Slots filled from a text's fields, one by one.
ghost use Rattle.std.specs.Prelude.{◌≡◌, not, length, ◌==◌};
ghost use Rattle.std.specs.Option.{option_map};
ghost use Rattle.text.specs.Texts.{formed};
ghost use Rattle.cuts.specs.Fields.{parts_in};
ghost use Rattle.orders.specs.Orders.{taken, left, fields_in, OrderLaw};
ghost use Rattle.orders.specs.ToCome.{to_come};

use crate::slot::Slot;
use crate::walk::Walk;
use cuts::tagged::{Fields, Tagged};

impl<'a> Walk<'a> {
    // All fields of a text that is formed, of which there are some; none of one that is not. Fields that are placed in an order are
    // all there, as they came.
    pub fn of(text: &'a [u8]) -> Walk<'a>
        ensures all { to_come result ≡ fields_in text.now }
        ensures some { (length (to_come result) == 0) ≡ not (formed text.now) }
        ensures law { OrderLaw }
    {
        let mut after = Fields::of(text);
        let next = after.next();
        Walk { next, after }
    }

    // The next field, if it fits the slot; else none, and it stays the next.
    #[tactic(auto, using(crate::proofs::Some::with_next_is), unfolding(crate::specs::Orders::taken, crate::specs::Orders::left))]
    pub fn take(&mut self, slot: Slot) -> Option<Tagged<'a>>
        ensures taken { option_map parts_in result ≡ taken slot (to_come self.old) }
        ensures left { to_come self.new ≡ left slot (to_come self.old) }
    {
        let field = self.next.filter(|f| slot.takes(f.tag))?;
        self.next = self.after.next();
        Some(field)
    }

    // Whether every field was taken.
    pub fn is_done(&self) -> bool
        ensures { result ≡ (length (to_come self.now) == 0) }
    {
        self.next.is_none()
    }
}
