// A business identifier code without branch.
ghost use Rattle.std.specs.Prelude.{◌≡◌, true};
ghost use Rattle.codes.specs.Bics.{bic_formed};
ghost use Rattle.keys.specs.Texts.{spelled};

// How many characters a BIC has.
pub(crate) const BIC_WIDTH: usize = 8;

// The code's eight characters, as one number. It is always of a BIC's form.
#[derive(Clone, Copy, PartialEq, Eq, PartialOrd, Ord)]
pub struct Bic {
    pub(crate) code: u64,
    ghost formed: { bic_formed (spelled code) ≡ true },
}
