// The houses in their order, and the index that finds them by BIC.
ghost use Rattle.std.specs.Prelude.{◌≡◌, map, length};
ghost use Rattle.index.specs.Contents.{entries};
ghost use Rattle.index.specs.Order.{Known, Rising, Full};
ghost use Rattle.keys.specs.Orders.{lesser};
ghost use Rattle.settings.specs.Places.{bic_of};

use crate::house::House;
use index::Index;

// The index is that of the records' references too, which may not allocate as a map does, and is proved once.
#[derive(Drop)]
pub(crate) struct Directory {
    pub(crate) houses: Vec<House>,
    pub(crate) by_bic: Index,
    ghost counted: { length (entries by_bic) ≡ length houses.items },
    ghost known: { Known (map bic_of houses.items) (entries by_bic) },
    ghost rising: { Rising lesser (map bic_of houses.items) (entries by_bic) },
    ghost full: { Full (map bic_of houses.items) (entries by_bic) },
}
