// Numbers as words write them.
ghost use Rattle.script.specs.Numbers.{number_of, signed_of};

use crate::command::LineError;
use crate::said::FromBytes;
use text::digits::number;

impl FromBytes for u64 {
    ghost written = { number_of };

    fn from_bytes(bytes: &[u8]) -> Result<u64, LineError> {
        if bytes.is_empty() {
            return Err(LineError::BadNumber);
        }
        number(bytes).ok_or(LineError::BadNumber)
    }
}

impl FromBytes for i64 {
    ghost written = { signed_of };

    fn from_bytes(bytes: &[u8]) -> Result<i64, LineError> {
        let signed = match bytes {
            [b'-', digits @ ..] => 0i64.checked_sub_unsigned(u64::from_bytes(digits)?),
            digits => 0i64.checked_add_unsigned(u64::from_bytes(digits)?),
        };
        signed.ok_or(LineError::BadNumber)
    }
}
