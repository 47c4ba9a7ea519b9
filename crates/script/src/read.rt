// From a line to its command.
ghost use Rattle.std.specs.Prelude.{◌≡◌};
ghost use Rattle.script.specs.Commands.{meaning, book_of, offer_of, pay_in_of, covers_of, is_nothing, command_of};
ghost use Rattle.script.specs.Laws.{LanguageLaw};
ghost use Rattle.script.specs.Outcomes.{Answers};

use crate::command::{Command, LineError};
use crate::names::Name;
use crate::said::{read, read_all};
use crate::words::Words;
use std::alloc::Global;

fn is_nothing(line: &[u8]) -> bool
    ensures { result ≡ is_nothing line.now }
{
    matches!(line, [] | [b'#', ..])
}

fn read_book(heap: Global, mut words: Words<'_>) -> Result<Command, LineError>
    ensures { Answers meaning (book_of words.entry) result }
{
    let kind = words.required()?;
    let sittings = words.required()?;
    Ok(Command::Book {
        kind: read(heap, kind)?,
        sittings: read(heap, sittings)?,
        sums: read_all(heap, words)?,
    })
}

fn read_offer(heap: Global, words: Words<'_>) -> Result<Command, LineError>
    ensures { Answers meaning (offer_of words.entry) result }
{
    Ok(Command::Offer {
        positions: read_all(heap, words)?,
    })
}

fn read_pay_in(heap: Global, mut words: Words<'_>) -> Result<Command, LineError>
    ensures { Answers meaning (pay_in_of words.entry) result }
{
    let place = words.required()?;
    let sum = words.required()?;
    words.end()?;
    Ok(Command::PayIn {
        place: read::<u64>(heap, place)? as usize,
        cents: read(heap, sum)?,
    })
}

fn read_covers(words: Words<'_>) -> Result<Command, LineError>
    ensures { Answers meaning (covers_of words.entry) result }
{
    words.end()?;
    Ok(Command::Covers)
}

// What a line means, or why it means nothing.
#[tactic(auto, using(crate::proofs::Printed::language_law))]
pub fn read_line(heap: Global, line: &[u8]) -> Result<Command, LineError>
    ensures means { Answers meaning (command_of line.now) result }
    ensures language { LanguageLaw }
{
    if is_nothing(line) {
        return Ok(Command::Nothing);
    }
    let mut words = Words::of(line);
    let name = words.required()?;
    match read(heap, name)? {
        Name::Book => read_book(heap, words),
        Name::Offer => read_offer(heap, words),
        Name::PayIn => read_pay_in(heap, words),
        Name::Covers => read_covers(words),
    }
}
