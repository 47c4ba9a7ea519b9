// What a kind of message brings: the digits of its type, its order of fields, its own contents.
ghost use Rattle.std.specs.Prelude.{◌≡◌, ℕ, List, None, Option, slice_index_or};
ghost use Rattle.fields.specs.Shapes.{Part};
ghost use Rattle.orders.specs.ToCome.{to_come};
ghost use Rattle.kinds.specs.Contents.{row_in, seen_as};
ghost use Rattle.kinds.specs.Sound.{Sound};
ghost use Rattle.kinds.specs.Verdicts.{Reads};

use faults::Fault;
use fields::terms::Terms;
use orders::Walk;

pub trait Kind<'a> {
    // what a message of the kind holds once it is read
    type Contents;

    const TYPE: [u8; 3];

    // the digits of the type
    ghost digits: { List ℕ };

    // the contents slot by slot; the first is the reference
    ghost parts: { Self.Contents → List (Option Part) };

    // the slot of the value
    ghost slot: { ℕ };

    // what is read from the fields of a text, at the day's terms, for a receiver with this BIC
    ghost reads: { Reads };

    fn type_digits() -> [u8; 3]
        ensures { result ≡ digits };

    // the terms are the day's, and the receiver the message's: they go together here alone
    fn read(walk: &mut Walk<'a>, terms: Terms, receiver: &'a [u8]) -> Result<Self::Contents, Fault>
        ensures { seen_as parts result ≡ reads terms receiver.now (to_come walk.old) };

    fn reference(contents: &Self::Contents) -> &'a [u8]
        ensures { result.now ≡ row_in (slice_index_or (parts contents.now) 0 None) };

    fn value(contents: &Self::Contents) -> &'a [u8]
        ensures { result.now ≡ row_in (slice_index_or (parts contents.now) slot None) };

    // whatever passes has a good reference, and an amount within the limit
    fn laws()
        ensures { Sound slot reads };
}
