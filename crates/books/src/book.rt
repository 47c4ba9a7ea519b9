// A book: one account a house, what their covers come to together, and the sittings that it will still take.
ghost use Rattle.std.specs.Prelude.{◌≡◌, ◌≤◌, length, map, MatchResult};
ghost use Rattle.keeper.specs.Covers.{total, most_together, most_houses};
ghost use Rattle.keeper.specs.Offers.{OfferAnswered, OfferDenied, covers_after, sittings_after};
ghost use Rattle.keeper.specs.PayIns.{pay_in_answer, covers_paid, PayInDenied};
ghost use Rattle.books.specs.Naming.{Names};
ghost use Rattle.books.specs.Opening.{Openable, OpenDenied};
ghost use Rattle.std.proofs.Common.{rules};
ghost use Rattle.std.proofs.lemmas.List.{length-map};

use crate::account::{Account, Naming, add_each, open_each};
use crate::offers::is_sound;
use crate::opening::{OpenDenial, may_open, total_of};
use crate::pay_ins::is_acceptable;
use keeper::{
    CoverAnswer, CoverDenial, Keeper, OfferAnswer, OfferDenial, PayInAnswer, PayInDenial, PayingIn,
};
use std::alloc::Global;

#[derive(Drop)]
pub struct Book<A: Account> {
    accounts: Vec<A>,
    // what the covers come to: kept, so that no pay-in adds them up
    together: u64,
    sittings: u64,
    ghost some: { 1 ≤ length accounts.items },
    ghost few: { length accounts.items ≤ most_houses },
    ghost known: { together ≡ total (map A.cover_in accounts.items) },
    ghost bounded: { total (map A.cover_in accounts.items) ≤ most_together },
}

impl<A: Naming> Book<A> {
    // A book over these sums, one a house, with so many sittings: a struct of the two would be taken apart here again.
    pub fn open(heap: Global, sums: &[u64], sittings: u64) -> Result<Book<A>, OpenDenial>
        ensures { MatchResult result (λ b. Openable sums.now sittings × (map A.Account.cover_in b.accounts.items ≡ sums.now) × (map A.Account.pledge_in b.accounts.items ≡ map A.Account.pledge_of sums.now) × (b.sittings ≡ sittings)) (λ e. OpenDenied sums.now sittings e) }
    {
        if !may_open(sums, sittings) {
            return Err(OpenDenial::BreaksRule);
        }
        let accounts = open_each(heap, sums)?;
        Ok(Book {
            accounts,
            together: total_of(sums),
            sittings,
        })
    }

    // What an offer is answered.
    fn offer_answer(&self, positions: &[i64]) -> OfferAnswer
        ensures answer { OfferAnswered (map A.Account.cover_in self.now.accounts.items) self.now.sittings positions.now result }
        ensures named { Names A.Named (map A.Account.cover_in self.now.accounts.items) positions.now result }
    {
        if !is_sound(positions, self.accounts.len()) {
            return Err(OfferDenial::Unsound);
        }
        if self.sittings == 0 {
            return Err(OfferDenial::NoSitting);
        }
        if let Some(place) = A::short(&self.accounts, positions) {
            return Err(OfferDenial::Short {
                place,
                cover: self.accounts[place].cover(),
            });
        }
        Ok(())
    }

    // What a pay-in is answered.
    fn pay_in_answer(&self, place: usize, amount: u64) -> PayInAnswer
        ensures { result ≡ pay_in_answer (map A.Account.cover_in self.now.accounts.items) place amount }
    {
        if place >= self.accounts.len() {
            return Err(PayInDenial::NoSuchHouse);
        }
        if !is_acceptable(self.together, amount) {
            return Err(PayInDenial::Refused);
        }
        Ok(())
    }
}

// An impl that adds a clause to a method has to say the trait's too.
impl<A: Naming> Keeper for Book<A> {
    ghost covers = { λ b. map A.Account.cover_in b.accounts.items };

    ghost sittings = { λ b. b.sittings };

    ghost some = { Prim.search (rules, length-map) };

    ghost few = { Prim.search (rules, length-map) };

    ghost bounded = { λ b. b.bounded };

    fn houses(&self) -> usize {
        self.accounts.len()
    }

    fn cover(&self, place: usize) -> CoverAnswer {
        self.accounts
            .get(place)
            .map(|account| account.cover())
            .ok_or(CoverDenial::NoSuchHouse)
    }

    fn sittings_left(&self) -> u64 {
        self.sittings
    }

    fn offer(&mut self, positions: &[i64]) -> OfferAnswer
        ensures answer { OfferAnswered (map A.Account.cover_in self.old.accounts.items) self.old.sittings positions.now result }
        ensures covers_after { map A.Account.cover_in self.new.accounts.items ≡ covers_after (map A.Account.cover_in self.old.accounts.items) positions.now result }
        ensures sittings_after { self.new.sittings ≡ sittings_after self.old.sittings result }
        ensures denial_alters_nothing { OfferDenied result → self.new ≡ self.old }
        ensures named { Names A.Named (map A.Account.cover_in self.old.accounts.items) positions.now result }
        ensures pledges_stay { map A.Account.pledge_in self.new.accounts.items ≡ map A.Account.pledge_in self.old.accounts.items }
    {
        self.offer_answer(positions)?;
        add_each(&mut self.accounts, positions);
        self.sittings -= 1;
        Ok(())
    }
}

impl<A: Naming> PayingIn for Book<A> {
    fn pay_in(&mut self, place: usize, amount: u64) -> PayInAnswer
        ensures answer { result ≡ pay_in_answer (map A.Account.cover_in self.old.accounts.items) place amount }
        ensures covers_after { map A.Account.cover_in self.new.accounts.items ≡ covers_paid (map A.Account.cover_in self.old.accounts.items) place amount result }
        ensures sittings_after { self.new.sittings ≡ self.old.sittings }
        ensures denial_alters_nothing { PayInDenied result → self.new ≡ self.old }
        ensures pledges_stay { map A.Account.pledge_in self.new.accounts.items ≡ map A.Account.pledge_in self.old.accounts.items }
    {
        self.pay_in_answer(place, amount)?;
        self.accounts[place] = self.accounts[place].moved(amount as i64);
        self.together += amount;
        Ok(())
    }
}
