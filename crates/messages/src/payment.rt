// A payment: money that a house sends for its client.
ghost use Rattle.std.specs.Prelude.{◌≡◌, ◌++◌, map, codes};
ghost use Rattle.std.specs.Option.{option_map};
ghost use Rattle.fields.specs.Shapes.{part_of};
ghost use Rattle.headers.specs.Tables.{first_of, unless};
ghost use Rattle.kinds.specs.Contents.{seen_as};
ghost use Rattle.kinds.specs.Sound.{Sound};
ghost use Rattle.orders.specs.Orders.{placed};
ghost use Rattle.orders.specs.ToCome.{to_come};
ghost use Rattle.messages.specs.PaymentForms.{laid_payment, payment_in, start_in};
ghost use Rattle.messages.specs.Payments.{later_readings, later_faults, payment_of, payment_read};
ghost use Rattle.messages.specs.Readings.{part_in};
ghost use Rattle.messages.specs.Slots.{payment_order};

use crate::last::check_last;
use crate::readings::{
    bank_if_there, charges, instruction_if_there, operation, payee, payer, reference,
    remittance_if_there, value,
};
use crate::slots::{
    BANK, CHARGES, INSTRUCTION, OPERATION, PAYEE, PAYER, REFERENCE, REMITTANCE, VALUE,
};
use cuts::tagged::Tagged;
use faults::{Code, Fault};
use fields::shape::Field;
use fields::terms::Terms;
use kinds::Kind;
use orders::Walk;

// The fields of a payment.
#[derive(Clone, Copy)]
pub struct PaymentParts<T> {
    pub reference: T,
    pub operation: T,
    pub instruction: Option<T>,
    pub value: T,
    pub payer: T,
    pub bank: Option<T>,
    pub payee: T,
    pub remittance: Option<T>,
    pub charges: T,
}

// What a payment holds.
pub type PaymentContents<'a> = PaymentParts<Field<'a>>;

// The fields of a payment in their slots.
fn lay_out<'a>(walk: &mut Walk<'a>) -> Option<PaymentParts<Tagged<'a>>>
    ensures { option_map laid_payment result ≡ placed payment_order (to_come walk.old) }
{
    let laid = PaymentParts {
        reference: walk.take(REFERENCE)?,
        operation: walk.take(OPERATION)?,
        instruction: walk.take(INSTRUCTION),
        value: walk.take(VALUE)?,
        payer: walk.take(PAYER)?,
        bank: walk.take(BANK),
        payee: walk.take(PAYEE)?,
        remittance: walk.take(REMITTANCE),
        charges: walk.take(CHARGES)?,
    };
    walk.is_done().then_some(laid)
}

// The first fields of a payment, up to the value: one function of nine checks would be no plainer than two.
#[derive(Clone, Copy)]
struct PaymentStart<'a> {
    reference: Field<'a>,
    operation: Field<'a>,
    instruction: Option<Field<'a>>,
    value: Field<'a>,
}

// What is read from the payer on, after the first fields.
fn read_later<'a>(
    laid: PaymentParts<Tagged<'a>>,
    receiver: &'a [u8],
    start: PaymentStart<'a>,
) -> Result<PaymentContents<'a>, Fault>
    ensures { seen_as payment_in result ≡ unless (first_of (later_faults (option_map part_of start.entry.instruction) receiver.now (laid_payment laid.entry))) (start_in start.entry ++ map part_in (later_readings (laid_payment laid.entry))) }
{
    let payer = payer(laid.payer)?;
    let bank = bank_if_there(laid.bank)?;
    let payee = payee(laid.payee)?;
    let remittance = remittance_if_there(laid.remittance)?;
    let charges = charges(laid.charges)?;
    check_last(start.instruction, bank, payee, receiver)?;
    Ok(PaymentParts {
        reference: start.reference,
        operation: start.operation,
        instruction: start.instruction,
        value: start.value,
        payer,
        bank,
        payee,
        remittance,
        charges,
    })
}

fn read_laid<'a>(
    laid: PaymentParts<Tagged<'a>>,
    terms: Terms,
    receiver: &'a [u8],
) -> Result<PaymentContents<'a>, Fault>
    ensures { seen_as payment_in result ≡ payment_of terms receiver.now (laid_payment laid.entry) }
{
    let reference = reference(laid.reference)?;
    let operation = operation(laid.operation)?;
    let instruction = instruction_if_there(laid.instruction)?;
    let value = value(laid.value, terms)?;
    let start = PaymentStart {
        reference,
        operation,
        instruction,
        value,
    };
    read_later(laid, receiver, start)
}

// The kind of a payment.
pub struct Payment;

impl<'a> Kind<'a> for Payment {
    type Contents = PaymentContents<'a>;

    const TYPE: [u8; 3] = [b'1', b'0', b'3'];

    ghost digits = { codes "103" };

    ghost parts = { payment_in };

    ghost slot = { 3 };

    ghost reads = { payment_read };

    fn type_digits() -> [u8; 3]
        ensures { result ≡ codes "103" }
    {
        Self::TYPE
    }

    fn read(
        walk: &mut Walk<'a>,
        terms: Terms,
        receiver: &'a [u8],
    ) -> Result<PaymentContents<'a>, Fault> {
        let laid = lay_out(walk).ok_or(Fault::of_message(Code::F05))?;
        read_laid(laid, terms, receiver)
    }

    fn reference(contents: &PaymentContents<'a>) -> &'a [u8] {
        contents.reference.line()
    }

    fn value(contents: &PaymentContents<'a>) -> &'a [u8] {
        contents.value.line()
    }

    fn laws()
        ensures { Sound 3 payment_read }
    {}
}
