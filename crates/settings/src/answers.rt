// Why settings were not opened. A book has cases of the same names, for rules of its own; no crate lies below both,
// and one made for two cases would be no plainer.
ghost use Rattle.std.specs.Prelude.{◌≡◌};
ghost use Rattle.settings.specs.declared.answers.OpenDenial.TheVariants.{NoMemory};
ghost use Rattle.settings.specs.Answers.{denial_number};

use std::alloc::AllocError;

#[derive(Clone, Copy, Debug, PartialEq, Eq)]
pub enum OpenDenial {
    // a rule of opening is broken
    BreaksRule,
    // there was no memory for the houses
    NoMemory,
}

impl OpenDenial {
    // The number by which it is answered; want of memory has none, so that no discriminant says it.
    pub fn number(self) -> Option<u8>
        ensures { result ≡ denial_number self }
    {
        match self {
            OpenDenial::BreaksRule => Some(20),
            OpenDenial::NoMemory => None,
        }
    }
}

impl From<AllocError> for OpenDenial {
    ghost from_gives = { λ _ d. d ≡ NoMemory };

    fn from(_: AllocError) -> OpenDenial {
        OpenDenial::NoMemory
    }
}
