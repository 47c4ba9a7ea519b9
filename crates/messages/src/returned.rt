// A return: money that comes back to the house that sent it.
ghost use Rattle.std.specs.Prelude.{◌≡◌, codes};
ghost use Rattle.std.specs.Option.{option_map};
ghost use Rattle.kinds.specs.Contents.{seen_as};
ghost use Rattle.kinds.specs.Sound.{Sound};
ghost use Rattle.orders.specs.Orders.{placed};
ghost use Rattle.orders.specs.ToCome.{to_come};
ghost use Rattle.messages.specs.Returns.{return_of, return_read};
ghost use Rattle.messages.specs.ReturnForms.{laid_return, return_in};
ghost use Rattle.messages.specs.Slots.{return_order};

use crate::readings::{bank, reason, reference, value};
use crate::slots::{REASON, REFERENCE, RELATED, RETURN_BANK, VALUE, fault_in};
use cuts::tagged::Tagged;
use faults::{Code, Fault};
use fields::shape::Field;
use fields::terms::Terms;
use kinds::Kind;
use orders::Walk;
use text::slices::same;

// The fields of a return.
#[derive(Clone, Copy)]
pub struct ReturnParts<T> {
    pub reference: T,
    pub related: T,
    pub value: T,
    pub bank: T,
    pub reason: T,
}

// What a return holds.
pub type ReturnContents<'a> = ReturnParts<Field<'a>>;

// The fields of a return in their slots.
fn lay_out<'a>(walk: &mut Walk<'a>) -> Option<ReturnParts<Tagged<'a>>>
    ensures { option_map laid_return result ≡ placed return_order (to_come walk.old) }
{
    let laid = ReturnParts {
        reference: walk.take(REFERENCE)?,
        related: walk.take(RELATED)?,
        value: walk.take(VALUE)?,
        bank: walk.take(RETURN_BANK)?,
        reason: walk.take(REASON)?,
    };
    walk.is_done().then_some(laid)
}

fn read_laid<'a>(
    laid: ReturnParts<Tagged<'a>>,
    terms: Terms,
    receiver: &'a [u8],
) -> Result<ReturnContents<'a>, Fault>
    ensures { seen_as return_in result ≡ return_of terms receiver.now (laid_return laid.entry) }
{
    let own = reference(laid.reference)?;
    let related = reference(laid.related)?;
    let value = value(laid.value, terms)?;
    let bank = bank(laid.bank)?;
    if !same(bank.line(), receiver) {
        return Err(fault_in(RETURN_BANK, Code::T26));
    }
    let reason = reason(laid.reason)?;
    Ok(ReturnParts {
        reference: own,
        related,
        value,
        bank,
        reason,
    })
}

// The kind of a return.
pub struct Return;

impl<'a> Kind<'a> for Return {
    type Contents = ReturnContents<'a>;

    const TYPE: [u8; 3] = [b'2', b'0', b'2'];

    ghost digits = { codes "202" };

    ghost parts = { return_in };

    ghost slot = { 2 };

    ghost reads = { return_read };

    fn type_digits() -> [u8; 3]
        ensures { result ≡ codes "202" }
    {
        Self::TYPE
    }

    fn read(
        walk: &mut Walk<'a>,
        terms: Terms,
        receiver: &'a [u8],
    ) -> Result<ReturnContents<'a>, Fault> {
        let laid = lay_out(walk).ok_or(Fault::of_message(Code::F05))?;
        read_laid(laid, terms, receiver)
    }

    fn reference(contents: &ReturnContents<'a>) -> &'a [u8] {
        contents.reference.line()
    }

    fn value(contents: &ReturnContents<'a>) -> &'a [u8] {
        contents.value.line()
    }

    fn laws()
        ensures { Sound 2 return_read }
    {}
}
