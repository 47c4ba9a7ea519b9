// The kinds of keys that the clearing's records and houses are found by: a BIC, and a reference with its sender.
// A key holds its text as one number, so that two compare fast, and no two texts have the same key.
// Knows nothing of messages, of records, or of which houses there are.

#![tactic(auto)]

mod bic;
mod orders;
mod packing;
mod reading;
mod reference;
mod reference_key;
mod spelling;
mod writing;

pub use bic::Bic;
pub use reference::Reference;
pub use reference_key::ReferenceKey;
pub use spelling::Spelling;

#[cfg(test)]
mod tests {
    use super::*;
    use std::test::Fail;

    #[test]
    fn bics_are_read_and_written(rt: HostRuntime) -> Result<(), Fail> {
        let bic = Bic::read(b"A1B2LV0X").ok_or("no BIC")?;
        assert!(rt; bic.bytes() == *b"A1B2LV0X");
        assert!(rt; bic.is_written_as(b"A1B2LV0X") && !bic.is_written_as(b"A1B2LV0Y"));
        assert!(rt; Bic::read(b"A1B2L10X").is_none());
        assert!(rt; Bic::read(b"A1B2LV0").is_none());
        assert!(rt; Bic::read(b"a1B2LV0X").is_none());
        Ok(())
    }

    #[test]
    fn references_are_read_and_written(rt: HostRuntime) -> Result<(), Fail> {
        let reference = Reference::read(b"A-1/+ '?").ok_or("no reference")?;
        assert!(rt; reference.spelling().as_slice() == b"A-1/+ '?".as_slice());
        assert!(rt; Reference::read(b"0123456789ABCDEF").is_some());
        assert!(rt; Reference::read(b"0123456789ABCDEFG").is_none());
        assert!(rt; Reference::read(b"").is_none());
        assert!(rt; Reference::read(b"a").is_none());
        Ok(())
    }
}
