// Fields read, each by its own rules: one line for each, which says what a reading of the specs is in the code. Without them each
// order of fields would speak of letters and rows, and be no plainer.
ghost use Rattle.std.specs.Prelude.{◌≡◌};
ghost use Rattle.std.specs.Option.{option_map};
ghost use Rattle.std.specs.Result.{result_err};
ghost use Rattle.cuts.specs.Fields.{parts_in};
ghost use Rattle.fields.specs.Shapes.{seen};
ghost use Rattle.messages.specs.Readings.{reference_read, operation_read, instruction_read, value_read, payer_read, bank_read, payee_read, remittance_read, charges_read, reason_read};
ghost use Rattle.messages.specs.Readings.{fault_in, part_in};
ghost use Rattle.messages.specs.Seen.{part_seen};

use cuts::tagged::Tagged;
use faults::Fault;
use fields::shape::Field;
use fields::terms::Terms;
use fields::{party, run, single, value};

#[tactic(auto, unfolding(crate::specs::Readings::reference_read))]
pub(crate) fn reference<'a>(f: Tagged<'a>) -> Result<Field<'a>, Fault>
    ensures { seen result ≡ reference_read (parts_in f.entry) }
{
    single::reference(f)
}

#[tactic(auto, unfolding(crate::specs::Readings::operation_read))]
pub(crate) fn operation<'a>(f: Tagged<'a>) -> Result<Field<'a>, Fault>
    ensures { seen result ≡ operation_read (parts_in f.entry) }
{
    single::operation(f)
}

#[tactic(auto, unfolding(crate::specs::Readings::instruction_read))]
pub(crate) fn instruction<'a>(f: Tagged<'a>) -> Result<Field<'a>, Fault>
    ensures { seen result ≡ instruction_read (parts_in f.entry) }
{
    single::instruction(f)
}

#[tactic(auto, unfolding(crate::specs::Readings::payer_read))]
pub(crate) fn payer<'a>(f: Tagged<'a>) -> Result<Field<'a>, Fault>
    ensures { seen result ≡ payer_read (parts_in f.entry) }
{
    party::payer(f)
}

#[tactic(auto, unfolding(crate::specs::Readings::bank_read))]
pub(crate) fn bank<'a>(f: Tagged<'a>) -> Result<Field<'a>, Fault>
    ensures { seen result ≡ bank_read (parts_in f.entry) }
{
    single::bank(f)
}

#[tactic(auto, unfolding(crate::specs::Readings::payee_read))]
pub(crate) fn payee<'a>(f: Tagged<'a>) -> Result<Field<'a>, Fault>
    ensures { seen result ≡ payee_read (parts_in f.entry) }
{
    party::payee(f)
}

#[tactic(auto, unfolding(crate::specs::Readings::remittance_read))]
pub(crate) fn remittance<'a>(f: Tagged<'a>) -> Result<Field<'a>, Fault>
    ensures { seen result ≡ remittance_read (parts_in f.entry) }
{
    run::remittance(f)
}

#[tactic(auto, unfolding(crate::specs::Readings::charges_read))]
pub(crate) fn charges<'a>(f: Tagged<'a>) -> Result<Field<'a>, Fault>
    ensures { seen result ≡ charges_read (parts_in f.entry) }
{
    single::charges(f)
}

#[tactic(auto, unfolding(crate::specs::Readings::reason_read))]
pub(crate) fn reason<'a>(f: Tagged<'a>) -> Result<Field<'a>, Fault>
    ensures { seen result ≡ reason_read (parts_in f.entry) }
{
    run::reason(f)
}

#[tactic(auto, unfolding(crate::specs::Readings::value_read))]
pub(crate) fn value<'a>(f: Tagged<'a>, terms: Terms) -> Result<Field<'a>, Fault>
    ensures { seen result ≡ value_read terms (parts_in f.entry) }
{
    value::value(f, terms)
}

// Fields that may be missing: one line each, as a function over any of them could not say which reading it has, where a bound names a lifetime.
// Field 23E.
pub(crate) fn instruction_if_there<'a>(f: Option<Tagged<'a>>) -> Result<Option<Field<'a>>, Fault>
    ensures fault { result_err result ≡ fault_in (option_map instruction_read (option_map parts_in f.entry)) }
    ensures part { part_seen result ≡ part_in (option_map instruction_read (option_map parts_in f.entry)) }
{
    f.map(instruction).transpose()
}

// Field 57.
pub(crate) fn bank_if_there<'a>(f: Option<Tagged<'a>>) -> Result<Option<Field<'a>>, Fault>
    ensures fault { result_err result ≡ fault_in (option_map bank_read (option_map parts_in f.entry)) }
    ensures part { part_seen result ≡ part_in (option_map bank_read (option_map parts_in f.entry)) }
{
    f.map(bank).transpose()
}

// Field 70.
pub(crate) fn remittance_if_there<'a>(f: Option<Tagged<'a>>) -> Result<Option<Field<'a>>, Fault>
    ensures fault { result_err result ≡ fault_in (option_map remittance_read (option_map parts_in f.entry)) }
    ensures part { part_seen result ≡ part_in (option_map remittance_read (option_map parts_in f.entry)) }
{
    f.map(remittance).transpose()
}
