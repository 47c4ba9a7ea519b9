// The account of the guarantee book: a pledge, which never changes, and a signed running sum beside it, first 0. The cover is the
// two together. Of several short houses the one with the greatest shortage is named, in a tie the one of lowest place.
ghost use Rattle.std.specs.Prelude.{◌≤◌, pos, ◌+ℤ◌, ◌≤ℤ◌};
ghost use Rattle.keeper.specs.Covers.{most_together};
ghost use Rattle.keeper.specs.Offers.{moved};
ghost use Rattle.books.specs.Naming.{Greatest};
ghost use Rattle.books.specs.Opening.{most_opening};

use crate::account::{Account, Naming, left};

#[derive(Clone, Copy)]
pub struct Guarantee {
    pledge: u64,
    sum: i64,
    ghost pledged: { pledge ≤ most_opening },
    ghost enough: { pos 0 ≤ℤ (pos pledge +ℤ sum) },
    ghost small: { moved pledge sum ≤ most_together },
}

impl Account for Guarantee {
    ghost cover_in = { λ guarantee. moved guarantee.pledge guarantee.sum };

    ghost pledge_in = { λ guarantee. guarantee.pledge };

    ghost pledge_of = { λ sum. sum };

    ghost small = { λ guarantee. guarantee.small };

    fn open(sum: u64) -> Guarantee {
        Guarantee {
            pledge: sum,
            sum: 0,
        }
    }

    fn cover(&self) -> u64 {
        (self.pledge as i64 + self.sum) as u64
    }

    fn moved(self, position: i64) -> Guarantee {
        Guarantee {
            pledge: self.pledge,
            sum: self.sum + position,
        }
    }
}

impl Naming for Guarantee {
    ghost Named = { Greatest };

    fn short(guarantees: &[Guarantee], positions: &[i64]) -> Option<usize> {
        // by place, since the place is asked for and what is short there
        let mut worst = 0;
        // what the worst house so far would have left: kept, and not worked out again at each place
        let mut least = left(guarantees[0], positions[0]);
        for (place, position) in positions.iter().enumerate() {
            let here = left(guarantees[place], *position);
            if here < least {
                worst = place;
                least = here;
            }
        }
        (least < 0).then_some(worst)
    }
}
