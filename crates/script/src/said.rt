// What a word says: its bytes are spelled, and what they write is read.
ghost use Rattle.std.specs.Prelude.{◌≡◌, ℕ, List, Result, vec_items};
ghost use Rattle.script.specs.declared.command.LineError.{LineError};
ghost use Rattle.script.specs.Commands.{said_by, said_by_all};
ghost use Rattle.script.specs.Outcomes.{Answers};

use crate::command::LineError;
use crate::spelling::spell;
use crate::words::Words;
use std::alloc::Global;

// What bytes can write: a value, or the reason why they write none. No `TryFrom`, which could not be given to the library's numbers.
pub(crate) trait FromBytes: Sized + Drop {
    ghost written: { List ℕ → Result Self LineError };

    fn from_bytes(bytes: &[u8]) -> Result<Self, LineError>
        ensures { result ≡ written bytes.now };
}

// What a word says.
pub(crate) fn read<T: FromBytes>(heap: Global, word: &[u8]) -> Result<T, LineError>
    ensures { Answers (λ (x : T). x) (said_by T.written word.now) result }
{
    T::from_bytes(&spell(heap, word)?)
}

// What each of the words says.
pub(crate) fn read_all<T: FromBytes>(heap: Global, words: Words<'_>) -> Result<Vec<T>, LineError>
    ensures { Answers vec_items (said_by_all T.written words.entry) result }
{
    let mut all = Vec::new(heap);
    for word in words {
        all.push(read(heap, word)?)?;
    }
    Ok(all)
}
