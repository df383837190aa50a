//! The best of the conflicts that apply.
ghost use Rattle.std.specs.Prelude.{◌≡◌, ◌+◌, ◌*◌, ◌<◌, ◌^◌, ℕ, List, Option};
ghost use Rattle.uhura_net.specs.declared.edge.Edge.{Edge};
ghost use Rattle.uhura_conflict.specs.Store.{IsBest};
ghost use Rattle.uhura_conflict.specs.Entries.{shown_as, AreWorth, bound_of, IsBestBelow};
ghost use Rattle.uhura_conflict.specs.Summaries.{AreCovered, AreSummed};

use crate::Bound;
use crate::blocks::may_matter_in;
use crate::entry::Entry;
use crate::sought::beyond;
use crate::summaries::{BLOCK, BLOCKS, GROUP, Summaries};
use crate::summary::Summary;
use slab::Slab;
use uhura_choice::Pick;

/// The best that these entries tell of the branches with these picks: it looks only into groups and blocks of keys of
/// which an entry may matter.
pub(crate) fn best_in(entries: &Slab<Entry>, summaries: &Summaries, picks: &[Pick]) -> Bound
    requires { AreSummed summaries.now entries.now }
    ensures { (order : List ℕ) (table : List (Option Edge)) → AreWorth entries.now table →
        IsBest (shown_as entries.now order table) picks.now result }
{
    let mut best = Bound::Nothing;
    for group in 0..entries.capacity() / GROUP + 1 {
        if may_matter_in(&summaries.groups, group, beyond(best), picks) {
            best = best_in_group(entries, &summaries.blocks, group, best, picks);
        }
    }
    best
}

/// The best of what is known and the entries of a group tell.
fn best_in_group(
    entries: &Slab<Entry>,
    blocks: &[Option<Summary>],
    group: usize,
    known: Bound,
    picks: &[Pick],
) -> Bound
    requires group { group < 2 ^ 54 }
    requires covered { AreCovered BLOCK blocks.now entries.now }
    requires known { IsBestBelow (group * GROUP) entries.now picks.now known }
    ensures { IsBestBelow (group * GROUP + GROUP) entries.now picks.now result }
{
    let mut best = known;
    for place in 0..BLOCKS {
        let block = group * BLOCKS + place;
        if may_matter_in(blocks, block, beyond(best), picks) {
            best = best_in_block(entries, block, best, picks);
        }
    }
    best
}

/// The best of what is known and the entries of a block tell.
fn best_in_block(entries: &Slab<Entry>, block: usize, known: Bound, picks: &[Pick]) -> Bound
    requires block { block < 2 ^ 59 }
    requires known { IsBestBelow (block * BLOCK) entries.now picks.now known }
    ensures { IsBestBelow (block * BLOCK + BLOCK) entries.now picks.now result }
{
    let mut best = known;
    for place in 0..BLOCK {
        let key = block * BLOCK + place;
        if let Some(entry) = entries.get(key) {
            if entry.is_sought(beyond(best)) && entry.conflict.applies(picks) {
                best = bound_of(entry, key);
            }
        }
    }
    best
}

/// What an entry tells, under its key.
fn bound_of(entry: &Entry, key: usize) -> Bound
    ensures { result ≡ bound_of entry.now key }
{
    if entry.conflict.is_stuck() {
        return Bound::Stuck { key };
    }
    Bound::Flow {
        value: entry.value,
        key,
    }
}
