//! `leaf W ..`: for each of the first choices the name of an alternative or `-`.
ghost use Rattle.std.specs.Prelude.{◌≡◌, map, option_map, IfOk, IfSome, OnOk};
ghost use Rattle.std.specs.List.{AllByRecursion};
ghost use Rattle.uhura_plan.specs.Sound.{IsName};
ghost use Rattle.uhura_line.specs.Written.{Appends};
ghost use Rattle.uhura_item.specs.Item.{pick_word, IsItem};
ghost use Rattle.uhura_item.specs.Reader.{picks_in, leaf_in};

use crate::word::{put_picked, read_picked};
use crate::{Item, Picks};
use std::alloc::{AllocError, Global};
use uhura_plan::{CHOICES, Name};
use uhura_text::Words;

/// What each word picks.
#[tactic(auto, using(crate::proofs::Picking::picked))]
fn read_picks(alloc: Global, mut words: Words<'_>) -> Result<Option<Vec<Option<Name>>>, AllocError>
    ensures read { IfOk result (λ picks.
        option_map (λ list. list.items) picks ≡ picks_in words.entry) }
    ensures sound { IfOk result (λ picks. IfSome picks (λ list.
        AllByRecursion (λ p. IfSome p IsName) list.items)) }
{
    let mut names = Vec::new(alloc);
    'names: while let Some(word) = words.next() {
        let Some(picked) = read_picked(word) else {
            return Ok(None);
        };
        names.push(picked)?;
    }
    Ok(Some(names))
}

/// Reads the words behind `leaf`: at most one for each choice that a plan may have.
pub(crate) fn read_leaf(alloc: Global, words: Words<'_>) -> Result<Option<Item>, AllocError>
    ensures read { IfOk result (λ item. item ≡ leaf_in words.entry) }
    ensures sound { IfOk result (λ item. IfSome item IsItem) }
{
    let Some(names) = read_picks(alloc, words)? else {
        return Ok(None);
    };
    if names.len() > CHOICES as usize {
        return Ok(None);
    }
    Ok(Some(Item::Leaf(Picks::from_vec(names))))
}

/// Appends what a leaf picks.
pub(crate) fn put_picks(line: &mut Vec<u8>, picks: &Picks) -> Result<(), AllocError>
    ensures { OnOk result (Appends line.old.items (map pick_word picks.now) line.new.items) }
{
    for picked in picks.as_slice() {
        put_picked(line, *picked)?;
    }
    Ok(())
}
