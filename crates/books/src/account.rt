// What a book holds of one house, and the work on one such account a house.
ghost use Rattle.std.specs.Prelude.{◌≡◌, ℕ, ◌≤◌, List, length, map, ℤ, pos, ◌+ℤ◌, ◌≤ℤ◌, IfOk, MatchOption};
ghost use Rattle.keeper.specs.Covers.{total, most_together};
ghost use Rattle.keeper.specs.Offers.{Sound, WithinLimit, NoneShort, add_each};
ghost use Rattle.books.specs.Naming.{IsShort};
ghost use Rattle.books.specs.Opening.{AllSmall, most_opening};

use std::alloc::{AllocError, Global};

pub trait Account: Copy {
    // what the house may be in debit at most, in cents
    ghost cover_in: { Self → ℕ };

    // what the house has pledged: 0 where its book has no pledges
    ghost pledge_in: { Self → ℕ };

    // what a house pledges that opens with a sum
    ghost pledge_of: { ℕ → ℕ };

    fn open(sum: u64) -> Self
        requires { sum ≤ most_opening }
        ensures cover { cover_in result ≡ sum }
        ensures pledge { pledge_in result ≡ pledge_of sum };

    fn cover(&self) -> u64
        ensures { result ≡ cover_in self.now };

    // With the position added to the cover: a debit is taken from it.
    fn moved(self, position: i64) -> Self
        requires enough { pos 0 ≤ℤ (pos (cover_in self) +ℤ position) }
        requires room { (pos (cover_in self) +ℤ position) ≤ℤ pos most_together }
        ensures cover { pos (cover_in result) ≡ pos (cover_in self) +ℤ position }
        ensures pledge { pledge_in result ≡ pledge_in self };

    ghost small: { (account : Self) → cover_in account ≤ most_together };
}

// Which of the short houses a book of such accounts names.
pub trait Naming: Account {
    // by the covers and the positions of all houses, whether the one at a place is named
    ghost Named: { List ℕ → List ℤ → ℕ → Type 0 };

    // The place of the house that is named, if a sound offer leaves any short.
    fn short(accounts: &[Self], positions: &[i64]) -> Option<usize>
        requires some { 1 ≤ length accounts.now }
        requires sound { Sound (length accounts.now) positions.now }
        ensures { MatchOption result (NoneShort (map Self.Account.cover_in accounts.now) positions.now) (λ place. IsShort (map Self.Account.cover_in accounts.now) positions.now place × Named (map Self.Account.cover_in accounts.now) positions.now place) };
}

// What the house would have left: less than 0 where it is short.
pub(crate) fn left<A: Account>(account: A, position: i64) -> i64
    requires { WithinLimit position }
    ensures { result ≡ pos (A.cover_in account) +ℤ position }
{
    account.cover() as i64 + position
}

pub(crate) fn open_each<A: Account>(heap: Global, sums: &[u64]) -> Result<Vec<A>, AllocError>
    requires { AllSmall sums.now }
    ensures covers { IfOk result (λ accounts. map A.cover_in accounts.items ≡ sums.now) }
    ensures pledges { IfOk result (λ accounts. map A.pledge_in accounts.items ≡ map A.pledge_of sums.now) }
{
    // Memory is asked for once, and want of it answered then: `collect` goes on past a first refusal, and asks again as it grows.
    let mut accounts = Vec::with_capacity(heap, sums.len())?;
    for sum in sums {
        accounts.push_reserved(A::open(*sum));
    }
    Ok(accounts)
}

pub(crate) fn add_each<A: Account>(accounts: &mut [A], positions: &[i64])
    requires sound { Sound (length accounts.old) positions.now }
    requires bounded { total (map A.cover_in accounts.old) ≤ most_together }
    requires enough { NoneShort (map A.cover_in accounts.old) positions.now }
    ensures covers { map A.cover_in accounts.new ≡ add_each (map A.cover_in accounts.old) positions.now }
    ensures together { total (map A.cover_in accounts.new) ≡ total (map A.cover_in accounts.old) }
    ensures pledges { map A.pledge_in accounts.new ≡ map A.pledge_in accounts.old }
{
    // By place: after a `zip` with `iter_mut` a proof knows nothing of what was written.
    for (place, position) in positions.iter().enumerate() {
        accounts[place] = accounts[place].moved(*position);
    }
}
