//! The alternatives of a choice, each with its cost.
ghost use Rattle.std.specs.Prelude.{◌≡◌, ◌∷◌, ◌++◌, [], ℕ, List, None, true, IfSome, IfNone, OnOk};
ghost use Rattle.uhura_line.specs.Form.{pair_words, guard_words};
ghost use Rattle.std.specs.List.{list_all};
ghost use Rattle.uhura_plan.specs.Name.{is_name};
ghost use Rattle.uhura_line.specs.Reads.{is_amount, alternative_pairs, count_word};
ghost use Rattle.uhura_line.specs.Reader.{alternatives_of};
ghost use Rattle.uhura_line.specs.Costed.{HoldsCosted, ReadsCosted};
ghost use Rattle.uhura_line.specs.Written.{Appends};

use super::ahead::Ahead;
use super::pairs::put_guard;
use super::places::{put_count, put_word, read_amount, read_name};
use crate::Literals;
use std::alloc::{AllocError, Global};
use uhura_plan::Name;

/// Alternatives as far as they are read.
#[derive(Drop)]
pub(crate) enum Costed {
    /// All words are names and costs, and these are they.
    Read(Vec<(Name, u32)>),
    /// All words are names and costs, and memory ran out.
    Memory(AllocError),
    /// All costs are numbers, and a word is no name.
    NotNames,
    /// A cost is no number.
    NotNumbers,
}

/// Puts an alternative at the end of the list.
#[tactic(auto, using(crate::proofs::CostedLemmas::costing))]
fn push(mut list: Vec<(Name, u32)>, alternative: Name, cost: u32) -> Costed
    requires name { is_name alternative ≡ true }
    requires number { is_amount (count_word cost) ≡ true }
    ensures { (before : List (List ℕ × List ℕ)) → HoldsCosted (Costed.Read list) before
        → HoldsCosted result (before ++ (alternative, count_word cost) ∷ []) }
{
    match list.push((alternative, cost)) {
        Ok(()) => Costed::Read(list),
        Err(failed) => Costed::Memory(AllocError::from(failed)),
    }
}

/// Puts the alternative of a word at the end, whose cost is read.
#[tactic(auto, using(crate::proofs::CostedLemmas::costing))]
fn push_cost(read: Costed, alternative: &[u8], cost: u32) -> Costed
    requires { is_amount (count_word cost) ≡ true }
    ensures { (before : List (List ℕ × List ℕ)) → HoldsCosted read before
        → HoldsCosted result (before ++ (alternative.now, count_word cost) ∷ []) }
{
    match read {
        Costed::Read(list) => match read_name(alternative) {
            Some(name) => push(list, name, cost),
            None => Costed::NotNames,
        },
        Costed::Memory(error) => match read_name(alternative) {
            Some(_) => Costed::Memory(error),
            None => Costed::NotNames,
        },
        Costed::NotNames => Costed::NotNames,
        Costed::NotNumbers => Costed::NotNumbers,
    }
}

/// Puts the alternative of two words at the end.
#[tactic(auto, using(crate::proofs::CostedLemmas::costing))]
fn push_words(read: Costed, alternative: &[u8], cost: &[u8]) -> Costed
    ensures { (before : List (List ℕ × List ℕ)) → HoldsCosted read before
        → HoldsCosted result (before ++ (alternative.now, cost.now) ∷ []) }
{
    match read_amount(cost) {
        Some(cost) => push_cost(read, alternative, cost),
        None => Costed::NotNumbers,
    }
}

/// The alternatives up to the first `when`, which stays.
#[tactic(auto, using(crate::proofs::CostedLemmas::reading))]
pub(crate) fn read_alternatives(alloc: Global, words: &mut Ahead<'_>) -> Option<Costed>
    ensures none { IfNone result (alternatives_of words.old ≡ None) }
    ensures some { IfSome result (ReadsCosted words.old words.new) }
{
    let mut read = Costed::Read(Vec::new(alloc));
    'alternatives: while !words.is_end() && !words.begins_with(b"when") {
        let alternative = words.next()?;
        if words.begins_with(b"when") {
            return None;
        }
        let cost = words.next()?;
        read = push_words(read, alternative, cost);
    }
    Some(read)
}

/// Appends an alternative and its cost.
fn put_alternative(line: &mut Vec<u8>, alternative: &(Name, u32)) -> Result<(), AllocError>
    ensures { let words = alternative.now.0 ∷ count_word alternative.now.1 ∷ [] in
        OnOk result (Appends line.old.items words line.new.items) }
{
    put_word(line, alternative.0.bytes())?;
    put_count(line, alternative.1)
}

/// Appends alternatives with their costs.
fn put_alternatives(line: &mut Vec<u8>, alternatives: &[(Name, u32)]) -> Result<(), AllocError>
    ensures { let words = pair_words (alternative_pairs alternatives.now) in
        OnOk result (Appends line.old.items words line.new.items) }
{
    for alternative in alternatives {
        put_alternative(line, alternative)?;
    }
    Ok(())
}

/// Appends alternatives with their costs, and a guard.
pub(crate) fn put_options(
    line: &mut Vec<u8>,
    alternatives: &[(Name, u32)],
    guard: &Literals,
) -> Result<(), AllocError>
    ensures { let words = pair_words (alternative_pairs alternatives.now)
        ++ guard_words guard.now in
        OnOk result (Appends line.old.items words line.new.items) }
{
    put_alternatives(line, alternatives)?;
    put_guard(line, guard)?;
    Ok(())
}
