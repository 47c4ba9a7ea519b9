// The settings of a day.
ghost use Rattle.std.specs.Prelude.{◌≡◌, ◌≤◌, false, length, is_some};
ghost use Rattle.settings.specs.Places.{place_of};
ghost use Rattle.settings.specs.Rules.{house_limit};

use crate::directory::Directory;
use keys::Bic;
use values::currency::Currency;
use values::dates::Date;

// There are 1 to 64 houses, and the clearing is none of them.
#[derive(Drop)]
pub struct Settings {
    pub(crate) date: Date,
    pub(crate) currency: Currency,
    pub(crate) clearing: Bic,
    pub(crate) directory: Directory,
    ghost some: { 1 ≤ length directory.houses.items },
    ghost few: { length directory.houses.items ≤ house_limit },
    ghost apart: { is_some (place_of clearing directory.houses.items) ≡ false },
}
