// The texts of keys again.
ghost use Rattle.std.specs.Prelude.{◌≡◌, true, Decides};
ghost use Rattle.std.specs.Str.{bytes_eq};
ghost use Rattle.codes.specs.Bics.{bic_formed};
ghost use Rattle.keys.specs.Texts.{reference_form};
ghost use Rattle.keys.specs.declared.bic.Bic.{Bic as Code};
ghost use Rattle.keys.specs.declared.reference.Reference.{Reference as Named};
ghost use Rattle.keys.specs.Held.{bic_text, reference_text, same_bic, written};

use crate::bic::{BIC_WIDTH, Bic};
use crate::reference::Reference;
use crate::spelling::{Spelling, spell};

impl Bic {
    // Its characters. They are of a BIC's form, and no other BIC has them.
    pub fn bytes(self) -> [u8; BIC_WIDTH]
        ensures text { result ≡ bic_text self }
        ensures formed { bic_formed result ≡ true }
        ensures alone { (b : Code) → bic_text b ≡ result → b ≡ self }
    {
        self.code.to_be_bytes()
    }

    // Whether the two are the same BIC.
    pub fn is(self, other: Bic) -> bool
        ensures answer { result ≡ same_bic self other }
        ensures same { Decides result (self ≡ other) }
        ensures texts { Decides result (bic_text self ≡ bic_text other) }
    {
        self == other
    }

    // Whether the bytes write this BIC.
    pub fn is_written_as(self, text: &[u8]) -> bool
        ensures { result ≡ bytes_eq (bic_text self) text.now }
    {
        Bic::read(text).is_some_and(|other| self.is(other))
    }
}

impl Reference {
    // Its characters. They are of a reference's form, and no other reference has them.
    pub fn spelling(self) -> Spelling
        ensures text { written result ≡ reference_text self }
        ensures formed { reference_form (written result) ≡ true }
        ensures alone { (q : Named) → reference_text q ≡ written result → q ≡ self }
    {
        spell(self.code)
    }
}
