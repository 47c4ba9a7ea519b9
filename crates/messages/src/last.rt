// The checks that take several fields of a payment together.
ghost use Rattle.std.specs.Prelude.{◌≡◌, Some};
ghost use Rattle.std.specs.Option.{option_map};
ghost use Rattle.std.specs.Result.{result_err};
ghost use Rattle.fields.specs.Shapes.{part_of};
ghost use Rattle.messages.specs.Payments.{held_by, keeper_of, misplaced, last_fault};

use crate::slots::{INSTRUCTION, PAYEE, fault_in};
use codes::accounts::bank_of;
use codes::instructions::is_hold;
use faults::{Code, Fault};
use fields::party::is_latvian;
use fields::shape::Field;
use text::slices::{front, same};

// How many characters of a BIC name the bank.
const BANK_CODE: usize = 4;

// Whether the instruction is there and is to hold.
fn is_held(instruction: Option<Field>) -> bool
    ensures { result ≡ held_by (option_map part_of instruction.entry) }
{
    instruction.is_some_and(|field| is_hold(field.line()))
}

// The bank that should keep the payee's account.
fn keeper<'a>(bank: Option<Field<'a>>, receiver: &'a [u8]) -> &'a [u8]
    ensures { result.now ≡ keeper_of (option_map part_of bank.entry) receiver.now }
{
    bank.map_or(receiver, |field| field.line())
}

fn is_misplaced(account: Option<&[u8]>, keeper: &[u8]) -> bool
    ensures { result ≡ misplaced (option_map (λ x. x.now) account.entry) keeper.now }
{
    account.is_some_and(|a| is_latvian(a) && !same(bank_of(a), front(keeper, BANK_CODE)))
}

// The last checks: of the payee's account, and of where it is kept.
#[tactic(auto, unfolding(crate::specs::Payments::last_fault))]
pub(crate) fn check_last<'a>(
    instruction: Option<Field<'a>>,
    bank: Option<Field<'a>>,
    payee: Field<'a>,
    receiver: &'a [u8],
) -> Result<(), Fault>
    ensures { result_err result ≡ last_fault (option_map part_of instruction.entry) (option_map part_of bank.entry) (Some (part_of payee.entry)) receiver.now }
{
    let account = payee.account();
    if account.is_none() && !is_held(instruction) {
        return Err(fault_in(INSTRUCTION, Code::T20));
    }
    if is_misplaced(account, keeper(bank, receiver)) {
        return Err(fault_in(PAYEE, Code::T33));
    }
    Ok(())
}
