// What the day asks of every value.

// The day as two digits each of year, month and day, and the day's currency.
#[derive(Clone, Copy)]
pub struct Terms {
    pub day: [u8; 6],
    pub currency: [u8; 3],
}
