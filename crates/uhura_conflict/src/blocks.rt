//! The summaries of blocks, each of so many keys.
ghost use Rattle.std.specs.Prelude.{◌≡◌, ◌/◌, ◌<◌, ◌≤◌, ◌^◌, ℕ, IsFalse, IsSome, OnOk, None, length, slice_index_or};
ghost use Rattle.slab.specs.Slab.{get};
ghost use Rattle.uhura_conflict.specs.declared.entry.Entry.{Entry};
ghost use Rattle.uhura_conflict.specs.Summaries.{IsCoveredBy, AreCovered, IsInRange, CannotMatter};

use crate::entry::Entry;
use crate::sought::Sought;
use crate::summary::{Summary, may_matter, widened};
use slab::Slab;
use std::alloc::AllocError;
use uhura_choice::Pick;

/// Makes the list reach a block; what comes to it has no entry.
pub(crate) fn reach(blocks: &mut Vec<Option<Summary>>, block: usize) -> Result<(), AllocError>
    requires { block < 2 ^ 59 }
    ensures room { OnOk result (block < length blocks.new.items) }
    ensures kept { (other : ℕ) → slice_index_or blocks.new.items other None
        ≡ slice_index_or blocks.old.items other None }
{
    for _ in blocks.len()..block + 1 {
        blocks.push(None)?;
    }
    Ok(())
}

/// Takes an entry into the summary of a block.
pub(crate) fn widen(blocks: &mut Vec<Option<Summary>>, block: usize, entry: &Entry)
    requires { block < length blocks.old.items }
    ensures here { IsCoveredBy (slice_index_or blocks.new.items block None) entry.now }
    ensures kept { (other : ℕ) (it : Entry) →
        IsCoveredBy (slice_index_or blocks.old.items other None) it →
        IsCoveredBy (slice_index_or blocks.new.items other None) it }
    ensures room { length blocks.new.items ≡ length blocks.old.items }
{
    blocks[block] = Some(widened(&blocks[block], entry));
}

/// Makes the summaries anew.
pub(crate) fn renew(blocks: &mut Vec<Option<Summary>>, size: usize, entries: &Slab<Entry>)
    requires size { 1 ≤ size }
    requires room { (key : ℕ) → IsSome (get entries.now key) → IsInRange size blocks.old.items key }
    ensures { AreCovered size blocks.new.items entries.now }
{
    blocks.fill(None);
    for key in 0..entries.capacity() {
        if let Some(entry) = entries.get(key) {
            widen(blocks, key / size, entry);
        }
    }
}

/// Whether an entry of this block may be looked for and apply to these picks.
pub(crate) fn may_matter_in(
    blocks: &[Option<Summary>],
    block: usize,
    sought: Sought,
    picks: &[Pick],
) -> bool
    ensures { IsFalse result → CannotMatter (slice_index_or blocks.now block None) picks.now sought }
{
    block < blocks.len() && may_matter(&blocks[block], sought, picks)
}
