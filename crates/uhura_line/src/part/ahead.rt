//! The words of a line with the next one in sight.
ghost use Rattle.std.specs.Prelude.{◌≡◌, ◌∷◌, [], Bool, true, false, IfSome, IfNone};
ghost use Rattle.uhura_line.specs.Reader.{begins_with};

use std::marker::Model;
use uhura_text::Words;

/// The words that are still to come, the next of them read already.
#[derive(Drop)]
pub(crate) struct Ahead<'a> {
    word: Option<&'a [u8]>,
    words: Words<'a>,
}

impl<'a> Model for Ahead<'a> {
    ghost use Rattle.std.specs.Prelude.{◌≡◌, ◌++◌, [], List, ℕ, IfNone, option_map};
    ghost use Rattle.uhura_line.specs.Form.{optional};

    ghost Value = { List (List ℕ) };

    ghost view = { λ a. optional (option_map (λ word. word.now) a.word) ++ a.words };

    ghost invariant = { λ a. IfNone a.word (a.words ≡ []) };
}

impl<'a> Ahead<'a> {
    /// The words that are still to come.
    pub(crate) fn new(mut words: Words<'a>) -> Ahead<'a>
        ensures { result ≡ words.entry }
    {
        let word = words.next();
        Ahead { word, words }
    }

    /// Whether the next word is this one.
    pub(crate) fn begins_with(&self, fixed: &[u8]) -> bool
        ensures { result ≡ begins_with fixed.now self.now }
    {
        match self.word {
            Some(word) => word == fixed,
            None => false,
        }
    }

    /// Whether there is no word left.
    pub(crate) fn is_end(&self) -> bool
        ensures yes { result ≡ true → self.now ≡ [] }
        ensures no { result ≡ false → self.now ≡ [] → ⊥ }
    {
        self.word.is_none()
    }

    /// Lends the next word.
    pub(crate) fn next(&mut self) -> Option<&'a [u8]>
        ensures word { IfSome result (λ word. self.old ≡ word.now ∷ self.new) }
        ensures none { IfNone result (self.old ≡ []) }
        ensures stays { IfNone result (self.new ≡ []) }
    {
        match self.word {
            Some(word) => {
                self.word = self.words.next();
                Some(word)
            }
            None => None,
        }
    }
}
