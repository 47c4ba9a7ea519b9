// The record of one message.
use crate::state::State;
use names::kinds::FileKind;

#[derive(Clone, Copy, PartialEq, Eq, Debug)]
pub struct Record {
    // the place of the house that handed it in
    pub sender: usize,
    // the file: what it holds, and its number
    pub kind: FileKind,
    pub file: u16,
    // its number in the file
    pub message: u16,
    // in cents
    pub amount: u64,
    // the place of the house that is to receive it; none if the message was rejected
    pub receiver: Option<usize>,
    pub state: State,
}
