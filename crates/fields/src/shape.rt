// What a field is once it is read.

// A part of the text's bytes, in one of four shapes. Rows keep their CrLf.
#[derive(Clone, Copy)]
pub enum Field<'a> {
    // a single row
    Row(&'a [u8]),
    // rows
    Rows(&'a [u8]),
    // an account, or none, and the rows after it
    Party(Option<&'a [u8]>, &'a [u8]),
    // the BIC of a bank
    Bic(&'a [u8]),
}
