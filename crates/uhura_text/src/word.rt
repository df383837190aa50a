//! The words of a line, lent one by one.
ghost use Rattle.std.specs.Prelude.{◌≡◌, ◌≤◌, ◌∷◌, [], not, length, position, IfSome, IfNone};
ghost use Rattle.std.specs.List.{position_or_len};
ghost use Rattle.uhura_text.specs.Words.{is_blank, words};

use crate::split::is_blank;
use std::marker::Model;

/// The words of a line that are still to come, in order. Each is a slice of the line.
#[derive(Drop)]
pub struct Words<'a> {
    rest: &'a [u8],
}

impl<'a> Model for Words<'a> {
    ghost use Rattle.std.specs.Prelude.{List, ℕ};
    ghost use Rattle.uhura_text.specs.Words.{words};

    ghost Value = { List (List ℕ) };

    ghost view = { λ w. words w.rest.now };
}

impl<'a> Words<'a> {
    /// All words of the line.
    pub(crate) fn new(line: &'a [u8]) -> Words<'a>
        ensures { result ≡ words line.now }
    {
        Words { rest: line }
    }

    /// Lends the next word.
    #[tactic(auto, using(crate::proofs::WordsLemmas::fronts))]
    pub fn next(&mut self) -> Option<&'a [u8]>
        ensures word { IfSome result (λ word. self.old ≡ word.now ∷ self.new) }
        ensures none { IfNone result (self.old ≡ []) }
        ensures stays { IfNone result (self.new ≡ []) }
    {
        let start = word_start(self.rest)?;
        let (_, line) = self.rest.split_at(start);
        let (word, rest) = line.split_at(word_len(line));
        self.rest = rest;
        Some(word)
    }
}

/// Where the next word begins: the place of the first byte that is no blank.
fn word_start(line: &[u8]) -> Option<usize>
    ensures { result ≡ position (λ b. not (is_blank b)) line.now }
{
    line.iter().position(|byte| !is_blank(*byte))
}

/// The place of the first blank.
fn first_blank(line: &[u8]) -> Option<usize>
    ensures { result ≡ position is_blank line.now }
{
    line.iter().position(|byte| is_blank(*byte))
}

/// How long the word is that a line begins with.
#[tactic(auto, using(crate::proofs::PlaceLemmas::places))]
fn word_len(line: &[u8]) -> usize
    ensures place { result ≡ position_or_len is_blank line.now }
    ensures within { result ≤ length line.now }
{
    match first_blank(line) {
        Some(place) => place,
        None => line.len(),
    }
}
