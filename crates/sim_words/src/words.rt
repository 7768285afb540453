//! The words of a line.
ghost use Rattle.std.specs.Prelude.{◌≡◌, MatchOption, [], ◌∷◌};
ghost use Rattle.std.specs.Str.{bytes_eq};
ghost use Rattle.sim_words.specs.Reading.{Gives, end_at, number_at, word_at, worker_at};
ghost use Rattle.sim_words.specs.Texts.{words_in, words_of};

use crate::command::WORKERS;
use crate::fault::LineFault;
use crate::numbers::number_of;
use crate::parts::Parts;
use std::marker::Model;

/// The words of a line that are left.
#[derive(Drop)]
pub struct Words<'a> {
    parts: Parts<'a>,
}

impl<'a> Model for Words<'a> {
    ghost use Rattle.std.specs.Prelude.{List, ℕ};
    ghost use Rattle.sim_words.specs.Texts.{words_in};

    ghost Value = { List (List ℕ) };

    ghost view = { λ w. words_in w.parts };
}

impl<'a> Words<'a> {
    /// The words of a line.
    pub fn new(line: &'a [u8]) -> Words<'a>
        ensures { result ≡ words_of line.now }
    {
        Words {
            parts: Parts::new(line, b' '),
        }
    }

    /// The next word, if one is left.
    pub fn next(&mut self) -> Option<&'a [u8]>
        ensures { MatchOption result ((self.old ≡ []) × (self.new ≡ [])) (λ word. self.old ≡ word.now ∷ self.new) }
    {
        next_word(&mut self.parts)
    }

    /// A word.
    pub fn word(&mut self) -> Result<&'a [u8], LineFault>
        ensures { Gives (λ word. (word.now, self.new)) result (word_at self.old) }
    {
        match self.next() {
            Some(word) => Ok(word),
            None => Err(LineFault::Bad),
        }
    }

    /// A number of 32 bits.
    pub fn number(&mut self) -> Result<u32, LineFault>
        ensures { Gives (λ number. (number, self.new)) result (number_at self.old) }
    {
        let word = self.word()?;
        let number = number_of(word)?;
        Ok(number)
    }

    /// The number of a worker.
    pub fn worker(&mut self) -> Result<u32, LineFault>
        ensures { Gives (λ worker. (worker, self.new)) result (worker_at self.old) }
    {
        let worker = self.number()?;
        if worker < WORKERS {
            Ok(worker)
        } else {
            Err(LineFault::Bad)
        }
    }

    /// Nothing, where no word is left.
    pub fn end(&mut self) -> Result<(), LineFault>
        ensures { Gives (λ nothing. nothing) result (end_at self.old) }
    {
        match self.next() {
            Some(_) => Err(LineFault::Bad),
            None => Ok(()),
        }
    }
}

// The next part that isn't empty, if one is left.
fn next_word<'a>(parts: &mut Parts<'a>) -> Option<&'a [u8]>
    ensures { MatchOption result ((words_in parts.old ≡ []) × (words_in parts.new ≡ []))
        (λ word. words_in parts.old ≡ word.now ∷ words_in parts.new) }
{
    'parts: while let Some(part) = parts.next() {
        if !part.is_empty() {
            return Some(part);
        }
    }
    None
}

/// Whether a word is this one.
pub fn is(word: &[u8], name: &str) -> bool
    ensures { result ≡ bytes_eq word.now name.now }
{
    word == name.as_bytes()
}
