// The control message of a file: what it states, and what it has to name.
use keys::Bic;
use values::currency::Currency;

// What a control message states of its file.
#[derive(Clone, Copy, PartialEq, Eq, Debug)]
pub struct Control {
    // how many messages follow it
    pub count: usize,
    // the cents that they come to
    pub total: u64,
}

// What a control message has to name: who hands the file in, to whom, and the currency of the day.
#[derive(Clone, Copy)]
pub struct Expected {
    pub sender: Bic,
    pub clearing: Bic,
    pub currency: Currency,
}
