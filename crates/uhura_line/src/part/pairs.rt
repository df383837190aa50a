//! Pairs of a choice and an alternative, and the guard, at the end of a line.
ghost use Rattle.std.specs.Prelude.{◌≡◌, ◌∷◌, ◌++◌, [], ℕ, List, None, true, false, IfSome, IfNone, OnOk};
ghost use Rattle.uhura_line.specs.Form.{pair_words, guard_words};
ghost use Rattle.uhura_line.specs.Reads.{are_names};
ghost use Rattle.uhura_line.specs.Reader.{pairs_of, guard_of};
ghost use Rattle.uhura_line.specs.Pairs.{HoldsPairs, ReadsPairs, ReadsGuard};
ghost use Rattle.uhura_line.specs.Written.{Appends};

use super::ahead::Ahead;
use super::places::{put_pair, put_word, read_name};
use crate::Literals;
use std::alloc::{AllocError, Global};
use uhura_plan::Name;

/// Pairs as far as they are read.
#[derive(Drop)]
pub(crate) enum Pairs {
    /// All words are names, and these are the pairs.
    Read(Vec<(Name, Name)>),
    /// All words are names, and memory ran out.
    Memory(AllocError),
    /// A word is no name.
    NotNames,
}

/// Puts a pair of names at the end of the list.
fn push(mut list: Vec<(Name, Name)>, pair: (Name, Name)) -> Pairs
    requires { are_names ((pair.0, pair.1) ∷ []) ≡ true }
    ensures { (before : List (List ℕ × List ℕ)) → list.items ≡ before
        → are_names before ≡ true → HoldsPairs result (before ++ (pair.0, pair.1) ∷ []) }
{
    match list.push(pair) {
        Ok(()) => Pairs::Read(list),
        Err(failed) => Pairs::Memory(AllocError::from(failed)),
    }
}

/// The names that two words spell.
fn read_pair(choice: &[u8], alternative: &[u8]) -> Option<(Name, Name)>
    ensures none { IfNone result (are_names ((choice.now, alternative.now) ∷ []) ≡ false) }
    ensures choice { IfSome result (λ pair. choice.now ≡ pair.0) }
    ensures alternative { IfSome result (λ pair. alternative.now ≡ pair.1) }
    ensures names { IfSome result (λ pair. are_names ((pair.0, pair.1) ∷ []) ≡ true) }
{
    match read_name(choice) {
        Some(choice) => match read_name(alternative) {
            Some(alternative) => Some((choice, alternative)),
            None => None,
        },
        None => None,
    }
}

/// Puts the pair of two words at the end.
fn push_words(pairs: Pairs, choice: &[u8], alternative: &[u8]) -> Pairs
    ensures { (before : List (List ℕ × List ℕ)) → HoldsPairs pairs before
        → HoldsPairs result (before ++ (choice.now, alternative.now) ∷ []) }
{
    match read_pair(choice, alternative) {
        Some(pair) => match pairs {
            Pairs::Read(list) => push(list, pair),
            Pairs::Memory(error) => Pairs::Memory(error),
            Pairs::NotNames => Pairs::NotNames,
        },
        None => Pairs::NotNames,
    }
}

/// The pairs that the words are, where none is left over.
pub(crate) fn read_pairs(alloc: Global, mut words: Ahead<'_>) -> Option<Pairs>
    ensures none { IfNone result (pairs_of words.entry ≡ None) }
    ensures some { IfSome result (ReadsPairs words.entry) }
{
    let mut pairs = Pairs::Read(Vec::new(alloc));
    'pairs: while let Some(choice) = words.next() {
        let alternative = words.next()?;
        pairs = push_words(pairs, choice, alternative);
    }
    Some(pairs)
}

/// The pairs behind `when`, or no pairs where nothing is left.
#[tactic(auto, using(crate::proofs::GuardLemmas::guards))]
pub(crate) fn read_guard(alloc: Global, mut words: Ahead<'_>) -> Option<Pairs>
    ensures none { IfNone result (guard_of words.entry ≡ None) }
    ensures some { IfSome result (ReadsGuard words.entry) }
{
    if words.is_end() {
        return Some(Pairs::Read(Vec::new(alloc)));
    }
    let begins = words.begins_with(b"when");
    let _when = words.next()?;
    if !begins || words.is_end() {
        return None;
    }
    read_pairs(alloc, words)
}

/// Appends pairs, one behind the other.
pub(crate) fn put_pairs(line: &mut Vec<u8>, pairs: &[(Name, Name)]) -> Result<(), AllocError>
    ensures { OnOk result (Appends line.old.items (pair_words pairs.now) line.new.items) }
{
    for pair in pairs {
        put_pair(line, pair)?;
    }
    Ok(())
}

/// Appends `when` and the pairs of a guard, or nothing.
pub(crate) fn put_guard(line: &mut Vec<u8>, guard: &Literals) -> Result<(), AllocError>
    ensures { OnOk result (Appends line.old.items (guard_words guard.now) line.new.items) }
{
    match guard.as_slice() {
        [] => Ok(()),
        pairs => {
            put_word(line, b"when")?;
            put_pairs(line, pairs)
        }
    }
}
