// Texts read into keys, where they are of the form.
ghost use Rattle.std.specs.Prelude.{◌≡◌};
ghost use Rattle.std.specs.Option.{option_map};
ghost use Rattle.codes.specs.Bics.{bic_formed};
ghost use Rattle.keys.specs.Texts.{reference_form, formed_only};
ghost use Rattle.keys.specs.Held.{bic_text, reference_text};

use crate::bic::Bic;
use crate::packing::packed;
use crate::reference::{REFERENCE_WIDTH, Reference};
use codes::bics::is_bic;
use text::class::Class;

fn is_reference(text: &[u8]) -> bool
    ensures { result ≡ reference_form text.now }
{
    (1..=REFERENCE_WIDTH).contains(&text.len()) && Class::Permitted.has_all(text)
}

// What is left of the two below is the form, the type and the width.
impl Bic {
    // The BIC that the bytes write, or none where they are not of its form.
    pub fn read(text: &[u8]) -> Option<Bic>
        ensures { option_map bic_text result ≡ formed_only bic_formed text.now }
    {
        if !is_bic(text) {
            return None;
        }
        Some(Bic {
            code: packed(text) as u64,
        })
    }
}

impl Reference {
    // The reference that the bytes write, or none where they are not of its form.
    pub fn read(text: &[u8]) -> Option<Reference>
        ensures { option_map reference_text result ≡ formed_only reference_form text.now }
    {
        if !is_reference(text) {
            return None;
        }
        Some(Reference { code: packed(text) })
    }
}
