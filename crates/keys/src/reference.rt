// The reference that a sender gives a message.
ghost use Rattle.std.specs.Prelude.{◌≡◌, true};
ghost use Rattle.keys.specs.Texts.{spelled, reference_form};

// How many characters a reference has at most.
pub(crate) const REFERENCE_WIDTH: usize = 16;

// The reference's 1 to 16 permitted characters, as one number.
#[derive(Clone, Copy, PartialEq, Eq, PartialOrd, Ord)]
pub struct Reference {
    pub(crate) code: u128,
    ghost formed: { reference_form (spelled code) ≡ true },
}
