// The slots of the kinds' orders of fields, each written out, since a constant calls no function.
ghost use Rattle.std.specs.Prelude.{◌≡◌};

use faults::{Code, Fault};
use orders::{Lettering, Slot};

// The fault of the field in the slot, at no row in particular. Fields have the like by a tag and a row; one for both would take the three
// numbers that it is made of.
pub(crate) fn fault_in(slot: Slot, code: Code) -> Fault
    ensures { result ≡ record { code = code; field = slot.number; row = 0 } }
{
    Fault {
        code,
        field: slot.number,
        row: 0,
    }
}

pub(crate) const REFERENCE: Slot = Slot {
    number: 20,
    letter: Lettering::Bare,
    may_be_missing: false,
};

pub(crate) const RELATED: Slot = Slot {
    number: 21,
    letter: Lettering::Bare,
    may_be_missing: false,
};

pub(crate) const OPERATION: Slot = Slot {
    number: 23,
    letter: Lettering::Letter(b'B'),
    may_be_missing: false,
};

pub(crate) const INSTRUCTION: Slot = Slot {
    number: 23,
    letter: Lettering::Letter(b'E'),
    may_be_missing: true,
};

pub(crate) const VALUE: Slot = Slot {
    number: 32,
    letter: Lettering::Letter(b'A'),
    may_be_missing: false,
};

pub(crate) const PAYER: Slot = Slot {
    number: 50,
    letter: Lettering::Any,
    may_be_missing: false,
};

pub(crate) const BANK: Slot = Slot {
    number: 57,
    letter: Lettering::Any,
    may_be_missing: true,
};

pub(crate) const RETURN_BANK: Slot = Slot {
    number: 58,
    letter: Lettering::Any,
    may_be_missing: false,
};

pub(crate) const PAYEE: Slot = Slot {
    number: 59,
    letter: Lettering::Any,
    may_be_missing: false,
};

pub(crate) const REMITTANCE: Slot = Slot {
    number: 70,
    letter: Lettering::Bare,
    may_be_missing: true,
};

pub(crate) const CHARGES: Slot = Slot {
    number: 71,
    letter: Lettering::Letter(b'A'),
    may_be_missing: false,
};

pub(crate) const REASON: Slot = Slot {
    number: 72,
    letter: Lettering::Bare,
    may_be_missing: false,
};
