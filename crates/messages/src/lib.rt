// The kinds of message that houses send each other, payment and return: for each its type, its order of fields, its contents and
// its checks. Knows nothing of how a message's header is judged, of records, phases and covers.

#![tactic(auto)]

pub mod examples;
mod last;
mod payment;
mod readings;
mod returned;
mod slots;

pub use payment::{Payment, PaymentContents, PaymentParts};
pub use returned::{Return, ReturnContents, ReturnParts};
