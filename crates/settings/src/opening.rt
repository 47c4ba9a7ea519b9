// What is given to open with. Nothing here is taken on trust.

// A house as it is given: the bytes of its BIC, whatever they are, and whether it is suspended. A house that is held has a BIC;
// one type over both would have two uses and be no plainer.
#[derive(Clone, Copy)]
pub struct HouseEntry<'a> {
    pub bic: &'a [u8],
    pub suspended: bool,
}

// The date in numbers, the bytes of the currency and of the clearing's BIC, and the houses; a house's place is its index.
#[derive(Clone, Copy)]
pub struct Opening<'a> {
    pub year: u64,
    pub month: u64,
    pub day: u64,
    pub currency: &'a [u8],
    pub clearing: &'a [u8],
    pub houses: &'a [HouseEntry<'a>],
}
