// The fields of a text that are still to come, the next of them at hand: kept here and not by `Peekable`, whose `peek` would change a
// walk that is only asked whether it is done.
use cuts::tagged::{Fields, Tagged};

#[derive(Drop)]
pub struct Walk<'a> {
    pub(crate) next: Option<Tagged<'a>>,
    pub(crate) after: Fields<'a>,
}
