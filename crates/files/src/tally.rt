// The messages of a body counted, and their amounts taken together against a stated total.
ghost use Rattle.std.specs.Prelude.{◌≡◌, length, is_some, IfSome, ◌==◌};
ghost use Rattle.frames.specs.Frames.{only_frames};
ghost use Rattle.files.specs.Amounts.{counted_sum};
ghost use Rattle.files.specs.Bodies.{messages_in};
ghost use Rattle.files.specs.Taking.{taken};

use crate::amounts::counted_amount;
use crate::messages::messages;

// What the frames after the first come to.
#[derive(Clone, Copy)]
pub(crate) struct Tally {
    // how many messages there are
    pub(crate) messages: usize,
    // whether their counted amounts come to the stated total
    pub(crate) agrees: bool,
}

// What is left of a sum once the amount is taken from it; where it is more than was left, nothing.
fn less(left: Option<u64>, amount: u64) -> Option<u64>
    ensures { result ≡ taken left amount }
{
    left?.checked_sub(amount)
}

// The tally against a stated total, unless bytes stand outside frames. No sum is formed: each amount is taken from what is left of the total.
pub(crate) fn tally_of(body: &[u8], total: u64) -> Option<Tally>
    ensures whole { is_some result ≡ only_frames body.now }
    ensures messages { IfSome result (λ t. t.messages ≡ length (messages_in body.now)) }
    ensures agrees { IfSome result (λ t. t.agrees ≡ (counted_sum (messages_in body.now) == total)) }
{
    let mut reader = messages(body);
    let mut messages = 0;
    let mut left = Some(total);
    // no `for` over the borrowed reader, since no contract says where that leaves it
    while let Some(content) = reader.next() {
        messages += 1;
        left = less(left, counted_amount(content));
    }
    reader.at_end().then_some(Tally {
        messages,
        agrees: left == Some(0),
    })
}
