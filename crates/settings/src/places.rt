// What a directory answers.
ghost use Rattle.std.specs.Prelude.{◌≡◌, ℕ, MatchOption, ◌≢◌};
ghost use Rattle.settings.specs.Places.{place_of, bic_at, suspended_at};

use crate::directory::Directory;
use keys::Bic;

impl Directory {
    pub(crate) fn place_of(&self, bic: Bic) -> Option<usize>
        ensures place { result ≡ place_of bic self.now.houses.items }
        ensures meaning { MatchOption result ((n : ℕ) → bic_at self.now.houses.items n ≢ Some bic) (λ n. bic_at self.now.houses.items n ≡ Some bic) }
    {
        self.by_bic
            .find(self.houses.as_slice(), &bic)
            .ok()
            .map(usize::from)
    }

    pub(crate) fn bic(&self, place: usize) -> Option<Bic>
        ensures { result ≡ bic_at self.now.houses.items place }
    {
        self.houses.get(place).map(|house| house.bic)
    }

    pub(crate) fn is_suspended(&self, place: usize) -> bool
        ensures { result ≡ suspended_at self.now.houses.items place }
    {
        self.houses.get(place).is_some_and(|house| house.suspended)
    }
}
