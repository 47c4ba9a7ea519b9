// The words of a line, one after another.
ghost use Rattle.std.specs.Iterator.{YieldsFirstRef, item_count};

use crate::command::LineError;
use std::iter::Iterator;
use std::marker::Model;
use text::chars::find;

const SPACE: u8 = b' ';

// The words that are left of a line: those of the text behind the last separator, or none.
#[derive(Drop)]
pub(crate) struct Words<'a> {
    left: Option<&'a [u8]>,
}

impl<'a> Model for Words<'a> {
    ghost use Rattle.std.specs.Prelude.{ℕ, List, option_copied};
    ghost use Rattle.script.specs.Commands.{space};
    ghost use Rattle.script.specs.Words.{words_left};

    ghost Value = { List (List ℕ) };

    ghost view = { λ w. words_left space (option_copied w.left) };
}

impl<'a> Words<'a> {
    ghost use Rattle.std.specs.Prelude.{◌≡◌, ◌≢◌, [], ◌∷◌, MatchResult};
    ghost use Rattle.script.specs.declared.command.LineError.TheVariants.{MissingWord, SpareWord};
    ghost use Rattle.script.specs.Commands.{space};
    ghost use Rattle.script.specs.Words.{words_of};

    pub(crate) fn of(line: &'a [u8]) -> Words<'a>
        ensures { result ≡ words_of space line.now }
    {
        Words { left: Some(line) }
    }

    // The next word, where one has to stand.
    pub(crate) fn required(&mut self) -> Result<&'a [u8], LineError>
        ensures { MatchResult result (λ word. self.old ≡ word.now ∷ self.new) (λ e. (self.old ≡ []) × (e ≡ MissingWord)) }
    {
        self.next().ok_or(LineError::MissingWord)
    }

    // Whether no word is left, where none may stand.
    pub(crate) fn end(mut self) -> Result<(), LineError>
        ensures { MatchResult result (λ _. self.entry ≡ []) (λ e. (self.entry ≢ []) × (e ≡ SpareWord)) }
    {
        match self.next() {
            None => Ok(()),
            Some(_) => Err(LineError::SpareWord),
        }
    }
}

impl<'a> Iterator for Words<'a> {
    type Item = &'a [u8];

    ghost next_gives = { YieldsFirstRef (λ words. words) };

    ghost remaining = { item_count (λ words. words) };

    fn next(&mut self) -> Option<&'a [u8]> {
        let text = self.left?;
        let (word, behind) = text.split_at(find(text, SPACE));
        self.left = behind.get(1..);
        Some(word)
    }
}
