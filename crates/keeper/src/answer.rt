// What a keeper answers: that the call was carried out, or why it was denied.

// An offer of one position a house: every position was added to its cover, and one sitting was used.
pub type OfferAnswer = Result<(), OfferDenial>;

#[derive(Clone, Copy, PartialEq, Eq, Debug)]
pub enum OfferDenial {
    // not one position a house, or not together 0, or one out of bounds
    Unsound,
    // no sitting is left
    NoSitting,
    // the debit of this house is above its cover, which is named too
    Short { place: usize, cover: u64 },
}

// A pay-in for one house: the sum was added to the house's cover.
pub type PayInAnswer = Result<(), PayInDenial>;

#[derive(Clone, Copy, PartialEq, Eq, Debug)]
pub enum PayInDenial {
    // no such house
    NoSuchHouse,
    // a sum of 0, above the most for one pay-in, or taking the covers together past their most
    Refused,
}

// The question for one house's cover.
pub type CoverAnswer = Result<u64, CoverDenial>;

#[derive(Clone, Copy, PartialEq, Eq, Debug)]
pub enum CoverDenial {
    NoSuchHouse,
}
