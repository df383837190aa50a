//! The leaves of a document, with its shared entries.
ghost use Rattle.std.specs.Prelude.{◌≡◌, [], All, map, IfOk};
ghost use Rattle.uhura_veto.specs.State.{State};
ghost use Rattle.uhura_search.specs.Answer.{shown_reason, shown_leaf, shown_leaves};
ghost use Rattle.uhura_proof.specs.Entries.{ArePlaces, HasPlaces, AreContents};
ghost use Rattle.uhura_proof.specs.Made.{IsThere, CanBeLeaf, AreMade};
ghost use Rattle.uhura_proof.specs.Using.{IsUseOf, IsReasonMade, IsLeafMade};

use crate::entries::put_entry;
use crate::entry::entry_of;
use indexmap::IndexSet;
use std::alloc::{AllocError, Global};
use uhura_cert::{Leaf, Listed, Reason, Shared};
use uhura_command::State;
use uhura_search::{LeafNote, LeafReason};

/// The use of an entry, which is put behind the others where none of them equals it.
fn use_of(
    alloc: Global,
    contents: &mut IndexSet<Vec<u64>>,
    entries: &mut Vec<Shared>,
    entry: Shared,
) -> Result<Reason, AllocError>
    requires placed { HasPlaces entry }
    requires contents { AreContents (map (λ content. content.items) contents.old.keys)
        entries.old.items }
    ensures contents { IfOk result (λ _.
        AreContents (map (λ content. content.items) contents.new.keys) entries.new.items) }
    ensures use_of { IfOk result (IsUseOf entries.old.items entry entries.new.items) }
{
    let place = put_entry(alloc, contents, entries, entry)?;
    Ok(Reason::Entry(place))
}

/// The reason of a leaf: a veto by its place, or the use of an entry. Units on no edge stand for the costs that are
/// picked.
fn reason_of(
    alloc: Global,
    state: &State,
    places: &[u32],
    contents: &mut IndexSet<Vec<u64>>,
    entries: &mut Vec<Shared>,
    reason: &LeafReason,
) -> Result<Reason, AllocError>
    requires places { ArePlaces state.now.plan places.now }
    requires there { IsThere state.now (shown_reason state.now reason.now) }
    requires contents { AreContents (map (λ content. content.items) contents.old.keys)
        entries.old.items }
    ensures contents { IfOk result (λ _.
        AreContents (map (λ content. content.items) contents.new.keys) entries.new.items) }
    ensures made { IfOk result (IsReasonMade state.now (shown_reason state.now reason.now)
        entries.old.items entries.new.items) }
{
    // By its type the plan is sound.
    let _ = state.plan.choices();
    match reason {
        LeafReason::Denied(name) => {
            let veto = state.vetoes.find(*name).unwrap_or(0);
            Ok(Reason::Denied(veto))
        }
        LeafReason::Empty => {
            let entry = Shared::Flow(Listed::from_vec(Vec::new(alloc)));
            use_of(alloc, contents, entries, entry)
        }
        LeafReason::Learned(conflict) => {
            let entry = entry_of(alloc, places, conflict)?;
            use_of(alloc, contents, entries, entry)
        }
    }
}

/// The leaf that shows what a leaf of an outcome does.
fn leaf_of(
    alloc: Global,
    state: &State,
    places: &[u32],
    contents: &mut IndexSet<Vec<u64>>,
    entries: &mut Vec<Shared>,
    note: &LeafNote,
) -> Result<Leaf, AllocError>
    requires places { ArePlaces state.now.plan places.now }
    requires can_be { CanBeLeaf state.now (shown_leaf state.now note.now) }
    requires contents { AreContents (map (λ content. content.items) contents.old.keys)
        entries.old.items }
    ensures contents { IfOk result (λ _.
        AreContents (map (λ content. content.items) contents.new.keys) entries.new.items) }
    ensures made { IfOk result (IsLeafMade state.now (shown_leaf state.now note.now)
        entries.old.items entries.new.items) }
{
    let reason = reason_of(alloc, state, places, contents, entries, &note.reason)?;
    let picks = note.prefix.entries().to_vec(alloc)?;
    Ok(Leaf {
        prefix: Listed::from_vec(picks),
        reason,
    })
}

/// The leaves that show what those of an outcome do, and puts the entries that they use.
pub(crate) fn leaves_of(
    alloc: Global,
    state: &State,
    places: &[u32],
    notes: &[LeafNote],
    entries: &mut Vec<Shared>,
) -> Result<Vec<Leaf>, AllocError>
    requires places { ArePlaces state.now.plan places.now }
    requires can_be { All (CanBeLeaf state.now) (shown_leaves state.now notes.now) }
    requires none { entries.old.items ≡ [] }
    ensures { IfOk result (λ leaves.
        AreMade state.now (shown_leaves state.now notes.now) entries.new.items leaves.items) }
{
    let mut contents = IndexSet::new(alloc);
    let mut leaves = Vec::new(alloc);
    for note in notes {
        leaves.push(leaf_of(alloc, state, places, &mut contents, entries, note)?)?;
    }
    Ok(leaves)
}
