// The control message of a file, read from a frame's content.
ghost use Rattle.std.specs.Prelude.{◌≡◌};
ghost use Rattle.text.specs.Rows.{rows_of};
ghost use Rattle.frames.specs.Blocks.{parts_in, named_in};
ghost use Rattle.files.specs.Stated.{StatedLaw};
ghost use Rattle.files.specs.Control.{is_address, is_addressed, is_reference_field, fields_in, stated_in, control_of};

use crate::control::{Control, Expected};
use crate::stated::only_row_states;
use cuts::tagged::{Fields, Tagged};
use fields::single::reference;
use frames::blocks::{Address, Blocks};
use keys::Bic;
use text::slices::same;
use text::tag::Tag;
use values::currency::Currency;

// The type of a control message.
const CONTROL_TYPE: &[u8] = b"198";
// The tag of the reference, which has no letter.
const REFERENCE: Tag = Tag {
    number: 20,
    letter: None,
};
// The tag of count and total.
const TOTAL: Tag = Tag {
    number: 90,
    letter: Some(b'C'),
};

// What the control message of the expected sender to the clearing states, unless the content is no control message.
pub fn read_control(content: &[u8], expected: Expected) -> Option<Control>
    ensures { result ≡ control_of content.now expected }
{
    let blocks = Blocks::read(content)?;
    if !is_addressed(blocks, expected) {
        return None;
    }
    text_states(blocks.text, expected.currency)
}

// Whether the address is the BIC's, with the branch that every address has. A header asks the same of its sender; no crate lies below both
// that knows addresses and BICs, and one for a line would be no plainer.
pub fn is_address(address: Address, bic: Bic) -> bool
    ensures { result ≡ is_address (named_in address.entry) bic }
{
    bic.is_written_as(address.bic) && address.is_in_branch()
}

// Whether the blocks are those of a control message of the sender to the clearing.
fn is_addressed(blocks: Blocks, expected: Expected) -> bool
    ensures { result ≡ is_addressed (parts_in blocks.entry) expected }
{
    is_address(blocks.sender(), expected.sender)
        && same(blocks.type_digits(), CONTROL_TYPE)
        && is_address(blocks.receiver(), expected.clearing)
}

// Whether the field is a reference, in its only row.
fn is_reference_field(field: Tagged) -> bool
    ensures { result ≡ is_reference_field field.entry.tag (rows_of field.entry.bytes.now) }
{
    field.tag == REFERENCE && reference(field).is_ok()
}

// What a text of two fields states, a reference and then count and total.
fn text_states(text: &[u8], currency: Currency) -> Option<Control>
    ensures { result ≡ stated_in (fields_in text.now) currency }
{
    let mut fields = Fields::of(text);
    let first = fields.next()?;
    let second = fields.next()?;
    if fields.next().is_some() {
        return None;
    }
    if !is_reference_field(first) || second.tag != TOTAL {
        return None;
    }
    only_row_states(second.bytes, currency)
}

// What reading count, currency and total means, whatever the row.
pub fn stated_law()
    ensures { StatedLaw }
{}
