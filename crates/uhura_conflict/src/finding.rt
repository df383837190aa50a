//! Whether an entry that is looked for applies.
ghost use Rattle.std.specs.Prelude.{◌+◌, ◌*◌, ◌<◌, ◌^◌, MatchBool};
ghost use Rattle.uhura_conflict.specs.Entries.{IsFound, NoneBetween};
ghost use Rattle.uhura_conflict.specs.Summaries.{AreCovered, AreSummed};

use crate::blocks::may_matter_in;
use crate::entry::Entry;
use crate::sought::Sought;
use crate::summaries::{BLOCK, BLOCKS, GROUP, Summaries};
use crate::summary::Summary;
use slab::Slab;
use uhura_choice::Pick;

/// Whether one of these entries is looked for and applies to these picks: it stops at the first.
pub(crate) fn finds_in(
    entries: &Slab<Entry>,
    summaries: &Summaries,
    sought: Sought,
    picks: &[Pick],
) -> bool
    requires { AreSummed summaries.now entries.now }
    ensures { MatchBool result (IsFound entries.now picks.now sought)
        (IsFound entries.now picks.now sought → ⊥) }
{
    for group in 0..entries.capacity() / GROUP + 1 {
        if may_matter_in(&summaries.groups, group, sought, picks)
            && finds_in_group(entries, &summaries.blocks, group, sought, picks)
        {
            return true;
        }
    }
    false
}

/// Whether one of a group is.
fn finds_in_group(
    entries: &Slab<Entry>,
    blocks: &[Option<Summary>],
    group: usize,
    sought: Sought,
    picks: &[Pick],
) -> bool
    requires group { group < 2 ^ 54 }
    requires covered { AreCovered BLOCK blocks.now entries.now }
    ensures { MatchBool result (IsFound entries.now picks.now sought)
        (NoneBetween entries.now picks.now sought (group * GROUP) (group * GROUP + GROUP)) }
{
    for place in 0..BLOCKS {
        let block = group * BLOCKS + place;
        if may_matter_in(blocks, block, sought, picks)
            && finds_in_block(entries, block, sought, picks)
        {
            return true;
        }
    }
    false
}

/// Whether one of a block is.
fn finds_in_block(entries: &Slab<Entry>, block: usize, sought: Sought, picks: &[Pick]) -> bool
    requires { block < 2 ^ 59 }
    ensures { MatchBool result (IsFound entries.now picks.now sought)
        (NoneBetween entries.now picks.now sought (block * BLOCK) (block * BLOCK + BLOCK)) }
{
    for place in 0..BLOCK {
        if let Some(entry) = entries.get(block * BLOCK + place) {
            if entry.is_sought(sought) && entry.conflict.applies(picks) {
                return true;
            }
        }
    }
    false
}
