// The fault of a check that fails in a field.
ghost use Rattle.std.specs.Prelude.{◌≡◌};

use faults::{Code, Fault};
use text::tag::Tag;

// The check's code, the number of the field's tag, and the row at which the check fails, or 0.
pub(crate) fn fault_in(tag: Tag, code: Code, row: u64) -> Fault
    ensures { result ≡ record { code = code; field = tag.number; row = row } }
{
    Fault {
        code,
        field: tag.number,
        row,
    }
}
