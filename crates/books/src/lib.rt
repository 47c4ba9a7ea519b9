// The books: two kinds of account keeper, with one account a house. That of the account book is one balance; that of the guarantee book
// a pledge and a running sum beside it. Knows nothing of who uses them: no messages, days or payments.

#![tactic(auto)]

mod account;
mod balance;
mod book;
mod guarantee;
mod offers;
mod opening;
mod pay_ins;

use balance::Balance;
use book::Book;
use guarantee::Guarantee;
pub use opening::OpenDenial;

pub type AccountBook = Book<Balance>;

pub type GuaranteeBook = Book<Guarantee>;
