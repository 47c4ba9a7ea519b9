// The account keeper: what every kind of book of the houses' covers means and promises, and the law of any run of offers and pay-ins.
// Knows nothing of messages, days or payments, nor of any particular book.

#![tactic(auto)]

mod answer;
mod carrying;
mod keeping;
mod numbers;
mod step;

pub use answer::{CoverAnswer, CoverDenial, OfferAnswer, OfferDenial, PayInAnswer, PayInDenial};
pub use carrying::{act, carry_out};
pub use keeping::{Keeper, MOST_HOUSES, PayingIn};
pub use numbers::Numbered;
pub use step::{Step, StepAnswer};
