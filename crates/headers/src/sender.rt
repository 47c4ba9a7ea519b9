// The house that sends a message, and the addresses that its header may name.
ghost use Rattle.std.specs.Prelude.{◌≡◌};
ghost use Rattle.frames.specs.Blocks.{named_in};
ghost use Rattle.settings.specs.Opened.{houses_of};
ghost use Rattle.settings.specs.Places.{bic_at};
ghost use Rattle.headers.specs.Headers.{is_sender, place_named, receiver_at};

use frames::blocks::Address;
use keys::Bic;
use settings::Settings;

// A house by its place in the settings.
#[derive(Clone, Copy)]
pub struct Sender<'s> {
    pub settings: &'s Settings,
    pub place: usize,
}

// The place of the house whose BIC the bytes write.
fn place_named(settings: &Settings, text: &[u8]) -> Option<usize>
    ensures { result ≡ place_named text.now (houses_of settings.now) }
{
    let bic = Bic::read(text)?;
    settings.place_of(bic)
}

impl<'s> Sender<'s> {
    // Whether the address is that of the house.
    pub(crate) fn is_at(self, address: Address) -> bool
        ensures { result ≡ is_sender (bic_at (houses_of self.entry.settings.now) self.entry.place) (named_in address.entry) }
    {
        address.is_in_branch()
            && self
                .settings
                .bic(self.place)
                .is_some_and(|bic| bic.is_written_as(address.bic))
    }

    // The place of the house that the address names, if it may receive from this one.
    #[tactic(auto, unfolding(crate::specs::Headers::receiver_at))]
    pub(crate) fn receiver_at(self, address: Address) -> Option<usize>
        ensures { result ≡ receiver_at (houses_of self.entry.settings.now) self.entry.place (named_in address.entry) }
    {
        if !address.is_in_branch() {
            return None;
        }
        place_named(self.settings, address.bic).filter(|place| !self.settings.is_suspended(*place)
            && *place != self.place)
    }
}
