// The names of the commands and of the kinds of books.
ghost use Rattle.script.specs.Names.{name_of, kind_of};

use crate::command::{Kind, LineError};
use crate::said::FromBytes;

// The names of the commands.
#[derive(Clone, Copy)]
pub(crate) enum Name {
    Book,
    Offer,
    PayIn,
    Covers,
}

impl FromBytes for Name {
    ghost written = { name_of };

    fn from_bytes(bytes: &[u8]) -> Result<Name, LineError> {
        match bytes {
            b"book" => Ok(Name::Book),
            b"offer" => Ok(Name::Offer),
            b"pay-in" => Ok(Name::PayIn),
            b"covers" => Ok(Name::Covers),
            _ => Err(LineError::UnknownCommand),
        }
    }
}

impl FromBytes for Kind {
    ghost written = { kind_of };

    fn from_bytes(bytes: &[u8]) -> Result<Kind, LineError> {
        match bytes {
            b"account" => Ok(Kind::Account),
            b"guarantee" => Ok(Kind::Guarantee),
            _ => Err(LineError::UnknownKind),
        }
    }
}
