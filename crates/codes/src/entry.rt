// A code of an instruction, and whether more text may follow it.
#[derive(Clone, Copy)]
pub struct Entry {
    pub code: [u8; 4],
    pub more: bool,
}
