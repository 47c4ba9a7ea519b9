// The bytes that a word spells.
ghost use Rattle.std.specs.Prelude.{◌≡◌, ◌<◌, [], length, vec_items, MatchOption, MatchResult, IfSome, IfOk};
ghost use Rattle.script.specs.Outcomes.{Answers, in_front};
ghost use Rattle.script.specs.Spelling.{hex_digit, paired, spelled};

use crate::command::LineError;
use std::alloc::Global;

const BACKSLASH: u8 = b'\\';

// The byte that two hexadecimal digits write.
fn hex_pair(high: u8, low: u8) -> Option<u8>
    ensures { result ≡ paired (hex_digit high) (hex_digit low) }
{
    let high = char::from(high).to_digit(16)?;
    let low = char::from(low).to_digit(16)?;
    Some((high * 16 + low) as u8)
}

// The first byte that a word spells, and the rest of the word; nothing of an empty word.
fn next_byte<'a>(word: &'a [u8]) -> Result<Option<(u8, &'a [u8])>, LineError>
    ensures spells { MatchResult result (λ o. MatchOption o (spelled word.now ≡ Ok []) (λ p. spelled word.now ≡ in_front p.0 (spelled p.1.now))) (λ e. spelled word.now ≡ Err e) }
    ensures shorter { IfOk result (λ o. IfSome o (λ p. length p.1.now < length word.now)) }
{
    match word {
        [] => Ok(None),
        [BACKSLASH, high, low, rest @ ..] => {
            let byte = hex_pair(*high, *low).ok_or(LineError::BadEscape)?;
            Ok(Some((byte, rest)))
        }
        [BACKSLASH, ..] => Err(LineError::BadEscape),
        [byte, rest @ ..] => Ok(Some((*byte, rest))),
    }
}

// All bytes that a word spells.
#[tactic(auto, using(crate::proofs::Following::following_one))]
pub(crate) fn spell(heap: Global, word: &[u8]) -> Result<Vec<u8>, LineError>
    ensures { Answers vec_items (spelled word.now) result }
{
    let mut bytes = Vec::new(heap);
    let mut rest = word;
    // no iterator, since a step may fail, and the first that does ends the word
    while let Some((byte, tail)) = next_byte(rest)? {
        bytes.push(byte)?;
        rest = tail;
    }
    Ok(bytes)
}
