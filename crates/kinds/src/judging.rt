// The verdict on a message.
ghost use Rattle.std.specs.Prelude.{◌≡◌};
ghost use Rattle.settings.specs.Opened.{houses_of};
ghost use Rattle.kinds.specs.Seen.{seen_passed};
ghost use Rattle.kinds.specs.Sound.{PayableIf};
ghost use Rattle.kinds.specs.Verdicts.{verdict_of};

use crate::kind::Kind;
use crate::reading::{read_text, terms_of};
use faults::Fault;
use fields::value::counted;
use headers::{Header, Sender};

// A message that passes: the receiver's place, the reference, the amount in cents, and what its kind holds.
#[derive(Drop)]
pub struct Passed<'a, C> {
    pub receiver: usize,
    pub reference: &'a [u8],
    pub amount: u64,
    pub contents: C,
}

// What comes of a content that the house sends as a message of the kind. One that passes goes to another house, has a good
// reference, and an amount within the limit.
pub fn judge<'a, K: Kind<'a>>(
    sender: Sender,
    content: &'a [u8],
) -> Result<Passed<'a, K::Contents>, Fault>
    ensures verdict { seen_passed K.Kind.parts result ≡ verdict_of K.Kind.digits K.Kind.slot K.Kind.reads sender.entry.settings.now sender.entry.place content.now }
    ensures payable { PayableIf (houses_of sender.entry.settings.now) sender.entry.place (seen_passed K.Kind.parts result) }
{
    K::laws();
    let header = Header::read(K::type_digits(), sender, content)?;
    let contents = read_text::<K>(header, terms_of(sender.settings))?;
    Ok(Passed {
        receiver: header.receiver,
        reference: K::reference(&contents),
        amount: counted(K::value(&contents)),
        contents,
    })
}
