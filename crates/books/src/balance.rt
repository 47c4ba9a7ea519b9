// The account of the account book: one balance. Of several short houses the one of lowest place is named.
ghost use Rattle.std.specs.Prelude.{◌≤◌};
ghost use Rattle.keeper.specs.Covers.{most_together};
ghost use Rattle.books.specs.Naming.{Lowest};

use crate::account::{Account, Naming, left};

#[derive(Clone, Copy)]
pub struct Balance {
    cents: u64,
    ghost small: { cents ≤ most_together },
}

impl Account for Balance {
    ghost cover_in = { λ balance. balance.cents };

    ghost pledge_in = { λ _. 0 };

    ghost pledge_of = { λ _. 0 };

    ghost small = { λ balance. balance.small };

    fn open(sum: u64) -> Balance {
        Balance { cents: sum }
    }

    fn cover(&self) -> u64 {
        self.cents
    }

    fn moved(self, position: i64) -> Balance {
        Balance {
            cents: (self.cents as i64 + position) as u64,
        }
    }
}

impl Naming for Balance {
    ghost Named = { Lowest };

    fn short(balances: &[Balance], positions: &[i64]) -> Option<usize> {
        balances
            .iter()
            .zip(positions)
            .position(|(balance, position)| left(*balance, *position) < 0)
    }
}
