// Settings opened, and what they answer. Of houses they hand on what the directory answers, which is this crate's alone.
ghost use Rattle.std.specs.Prelude.{◌≡◌, ℕ, ◌≤◌, length, MatchOption, ◌≢◌};
ghost use Rattle.settings.specs.Places.{place_of, bic_at, suspended_at};
ghost use Rattle.settings.specs.Rules.{house_limit, BicsLaw};
ghost use Rattle.settings.specs.Opened.{Opened, houses_of};

use crate::answers::OpenDenial;
use crate::directory::Directory;
use crate::opening::Opening;
use crate::rules::are_houses_kept;
use crate::settings::Settings;
use keys::Bic;
use std::alloc::Global;
use values::currency::Currency;
use values::dates::Date;

impl Settings {
    // Settings that hold what is given, where it keeps the rules and there is memory for the houses.
    #[tactic(auto, using(crate::proofs::Bics::bics_law))]
    pub fn open(heap: Global, opening: &Opening) -> Result<Settings, OpenDenial>
        ensures opened { Opened opening.now result }
        ensures law { BicsLaw }
    {
        let date = Date::new(opening.year, opening.month, opening.day).ok_or(
            OpenDenial::BreaksRule,
        )?;
        let currency = Currency::new(opening.currency).ok_or(OpenDenial::BreaksRule)?;
        let clearing = Bic::read(opening.clearing).ok_or(OpenDenial::BreaksRule)?;
        if !are_houses_kept(clearing, opening.houses) {
            return Err(OpenDenial::BreaksRule);
        }
        let directory = Directory::of(heap, opening.houses)?;
        Ok(Settings {
            date,
            currency,
            clearing,
            directory,
        })
    }

    pub fn date(&self) -> Date
        ensures { result ≡ self.now.date }
    {
        self.date
    }

    pub fn currency(&self) -> Currency
        ensures { result ≡ self.now.currency }
    {
        self.currency
    }

    pub fn clearing(&self) -> Bic
        ensures { result ≡ self.now.clearing }
    {
        self.clearing
    }

    // How many houses there are: 1 to 64.
    pub fn house_count(&self) -> usize
        ensures count { result ≡ length (houses_of self.now) }
        ensures some { 1 ≤ result }
        ensures few { result ≤ house_limit }
    {
        self.directory.houses.len()
    }

    // The place of the house that has the BIC, or none where no house has it.
    pub fn place_of(&self, bic: Bic) -> Option<usize>
        ensures place { result ≡ place_of bic (houses_of self.now) }
        ensures meaning { MatchOption result ((n : ℕ) → bic_at (houses_of self.now) n ≢ Some bic) (λ n. bic_at (houses_of self.now) n ≡ Some bic) }
    {
        self.directory.place_of(bic)
    }

    // The BIC of the house at the place, if there is one.
    pub fn bic(&self, place: usize) -> Option<Bic>
        ensures { result ≡ bic_at (houses_of self.now) place }
    {
        self.directory.bic(place)
    }

    // Whether a house stands at the place and is suspended.
    pub fn is_suspended(&self, place: usize) -> bool
        ensures { result ≡ suspended_at (houses_of self.now) place }
    {
        self.directory.is_suspended(place)
    }
}
