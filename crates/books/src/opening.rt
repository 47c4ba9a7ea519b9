// The rules of opening a book, and what its covers come to then.
ghost use Rattle.std.specs.Prelude.{◌≡◌, ◌≤◌, Decides};
ghost use Rattle.keeper.specs.Covers.{total, most_together};
ghost use Rattle.books.specs.Opening.{Openable, AllSmall, open_number};
ghost use Rattle.books.specs.declared.opening.OpenDenial.TheVariants.{NoMemory};

use keeper::MOST_HOUSES;
use std::alloc::AllocError;

const MOST_OPENING: u64 = 1_000_000_000_000;

const MOST_SITTINGS: u64 = 255;

// Why a book does not open. Settings have cases of the same names, for rules of their own.
#[derive(Clone, Copy, PartialEq, Eq, Debug)]
pub enum OpenDenial {
    // not 1 to 64 houses, not 1 to 255 sittings, or a house with too large a sum
    BreaksRule,
    // there was no memory for the book
    NoMemory,
}

impl OpenDenial {
    // Want of memory has none, so that no discriminant says it.
    pub fn number(self) -> Option<u8>
        ensures { result ≡ open_number self }
    {
        match self {
            OpenDenial::BreaksRule => Some(20),
            OpenDenial::NoMemory => None,
        }
    }
}

impl From<AllocError> for OpenDenial {
    ghost from_gives = { λ _ denial. denial ≡ NoMemory };

    fn from(_error: AllocError) -> OpenDenial {
        OpenDenial::NoMemory
    }
}

fn all_small(sums: &[u64]) -> bool
    ensures { Decides result (AllSmall sums.now) }
{
    sums.iter().all(|sum| *sum <= MOST_OPENING)
}

pub(crate) fn may_open(sums: &[u64], sittings: u64) -> bool
    ensures { Decides result (Openable sums.now sittings) }
{
    (1..=MOST_HOUSES).contains(&sums.len())
        && (1..=MOST_SITTINGS).contains(&sittings)
        && all_small(sums)
}

// What the covers come to as the book opens.
pub(crate) fn total_of(sums: &[u64]) -> u64
    requires { total sums.now ≤ most_together }
    ensures { result ≡ total sums.now }
{
    sums.iter().sum()
}
