// A place in an order of fields.

// Which letters the tag at a place may have.
#[derive(Clone, Copy)]
pub enum Lettering {
    // none
    Bare,
    // this one
    Letter(u8),
    // any letter or none: it is judged when the field is
    Any,
}

#[derive(Clone, Copy)]
pub struct Slot {
    pub number: u8,
    pub letter: Lettering,
    pub may_be_missing: bool,
}
