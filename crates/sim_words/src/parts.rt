//! What stands between the bytes that part a text.
ghost use Rattle.std.specs.Prelude.{◌≡◌, ◌≤◌, MatchOption, [], ◌∷◌, length, option_map};
ghost use Rattle.sim_words.specs.Texts.{behind, leading, parts};

use std::marker::Model;

/// The parts of a text that are left.
#[derive(Drop)]
pub struct Parts<'a> {
    rest: Option<&'a [u8]>,
    byte: u8,
}

impl<'a> Model for Parts<'a> {
    ghost use Rattle.std.specs.Prelude.{List, ℕ, option_map};
    ghost use Rattle.sim_words.specs.Texts.{all_parts};

    ghost Value = { List (List ℕ) };

    ghost view = { λ p. all_parts p.byte (option_map (λ rest. rest.now) p.rest) };
}

impl<'a> Parts<'a> {
    /// What stands between these bytes.
    pub fn new(text: &'a [u8], byte: u8) -> Parts<'a>
        ensures { result ≡ parts byte text.now }
    {
        Parts {
            rest: Some(text),
            byte,
        }
    }

    /// The next one, if one is left.
    #[tactic(auto, using(crate::proofs::Cut::cut_parts))]
    pub fn next(&mut self) -> Option<&'a [u8]>
        ensures { MatchOption result ((self.old ≡ []) × (self.new ≡ [])) (λ part. self.old ≡ part.now ∷ self.new) }
    {
        let text = self.rest?;
        let (part, rest) = cut(text, self.byte);
        self.rest = rest;
        Some(part)
    }
}

// What stands before the first of these bytes, and what is behind it, if there is one.
#[tactic(auto, using(crate::proofs::Cut::leading_is, crate::proofs::Cut::behind_is))]
fn cut(text: &[u8], byte: u8) -> (&[u8], Option<&[u8]>)
    ensures leading { result.0.now ≡ leading byte text.now }
    ensures behind { option_map (λ rest. rest.now) result.1 ≡ behind byte text.now }
{
    let length = leading_length(text, byte);
    if length < text.len() {
        (&text[..length], Some(&text[length + 1..]))
    } else {
        (text, None)
    }
}

// How many bytes stand before the first of these.
#[tactic(auto, using(crate::proofs::Cut::met, crate::proofs::Cut::passed))]
fn leading_length(text: &[u8], byte: u8) -> usize
    ensures is { result ≡ length (leading byte text.now) }
    ensures within { result ≤ length text.now }
{
    'bytes: for index in 0..text.len() {
        if text[index] == byte {
            return index;
        }
    }
    text.len()
}
