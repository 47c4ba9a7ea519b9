// A house as it is held, and what it is found by.
ghost use Rattle.std.specs.Prelude.{Some};

use index::Keyed;
use keys::Bic;

// A house of the clearing.
#[derive(Clone, Copy)]
pub struct House {
    pub bic: Bic,
    pub suspended: bool,
}

impl Keyed<Bic> for House {
    ghost called = { λ h. Some h.bic };

    fn key(&self) -> Option<Bic> {
        Some(self.bic)
    }
}
