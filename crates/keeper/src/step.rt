// One thing that may be asked of a paying-in keeper, and what it was answered.
use crate::answer::{OfferAnswer, PayInAnswer};

#[derive(Clone, Copy)]
pub enum Step<'a> {
    Offer { positions: &'a [i64] },
    PayIn { place: usize, amount: u64 },
}

#[derive(Clone, Copy)]
pub enum StepAnswer {
    Offer(OfferAnswer),
    PayIn(PayInAnswer),
}
