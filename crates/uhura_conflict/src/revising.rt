//! A store's tables, as they take over a table of edges.
ghost use Rattle.std.specs.Prelude.{◌≡◌, ◌≢◌, ◌<◌, ◌≤◌, ℕ, IsFalse, IfSome, All, filter, length};
ghost use Rattle.slab.specs.Slab.{get};
ghost use Rattle.uhura_net.specs.declared.place.TheConstants.{PLACES};
ghost use Rattle.uhura_net.specs.Table.{IsTable};
ghost use Rattle.uhura_conflict.specs.Marked.{AreMarked, DifferAmong};
ghost use Rattle.uhura_conflict.specs.Entries.{is_held, IsKeptFor, IsUntouched, RevisesAt};

use crate::comparing::touches;
use crate::entry::Entry;
use crate::worth::{flow_worth, outlasts};
use slab::Slab;
use uhura_net::{EdgeTable, PLACES, Place};

/// Gives up the entries that don't outlast the change from the one table to the other, and sets the values of the
/// others to those at the new one.
pub(crate) fn revise_all(
    entries: &mut Slab<Entry>,
    old: &EdgeTable,
    new: &EdgeTable,
    changed: &[bool],
)
    requires marked { AreMarked old.now new.now changed.now }
    requires kept { (key : ℕ) → IfSome (get entries.old key) (IsKeptFor old.now) }
    ensures { (key : ℕ) → RevisesAt entries.old entries.new old.now new.now key }
{
    for key in 0..entries.capacity() {
        revise_touched(entries, key, old, new, changed);
    }
}

/// Does so with the entry under this key, if there is one and an edge of it changed.
fn revise_touched(
    entries: &mut Slab<Entry>,
    key: usize,
    old: &EdgeTable,
    new: &EdgeTable,
    changed: &[bool],
)
    requires marked { AreMarked old.now new.now changed.now }
    requires kept { IfSome (get entries.old key) (IsKeptFor old.now) }
    ensures here { RevisesAt entries.old entries.new old.now new.now key }
    ensures others { (other : ℕ) → other ≢ key → get entries.new other ≡ get entries.old other }
    ensures slots { length entries.new.slots ≡ length entries.old.slots }
{
    if is_touched(entries, key, changed) {
        revise_entry(entries, key, old, new);
    }
}

/// Whether there is an entry under this key with an edge that changed.
fn is_touched(entries: &Slab<Entry>, key: usize, changed: &[bool]) -> bool
    requires { length changed.now ≡ PLACES }
    ensures { IsFalse result → IfSome (get entries.now key) (IsUntouched changed.now) }
{
    match entries.get(key) {
        Some(entry) => touches(entry.conflict.units(), changed),
        None => false,
    }
}

/// Gives up the entry under this key or sets its value, if there is one.
fn revise_entry(entries: &mut Slab<Entry>, key: usize, old: &EdgeTable, new: &EdgeTable)
    ensures here { RevisesAt entries.old entries.new old.now new.now key }
    ensures others { (other : ℕ) → other ≢ key → get entries.new other ≡ get entries.old other }
    ensures slots { length entries.new.slots ≡ length entries.old.slots }
{
    let Some(entry) = entries.get_mut(key) else {
        return;
    };
    if outlasts(&entry.conflict, old, new) {
        entry.value = flow_worth(&entry.conflict, new);
    } else {
        entries.try_remove(key);
    }
}

/// Keeps the keys that have an entry, in their order.
pub(crate) fn keep_held(order: &mut Vec<usize>, entries: &Slab<Entry>)
    ensures { order.new.items ≡ filter (is_held entries.now) order.old.items }
{
    let mut kept = 0;
    for place in 0..order.len() {
        let key = order[place];
        if entries.contains(key) {
            order[kept] = key;
            kept += 1;
        }
    }
    order.truncate(kept);
}

/// Makes the one table the other.
pub(crate) fn copy_table(to: &mut EdgeTable, from: &EdgeTable)
    ensures copied { to.new ≡ from.now }
    ensures sound { IsTable from.now }
{
    for number in 0..PLACES as u32 {
        to.put(Place(number), from.get(Place(number)));
    }
}

/// Makes the one table the other, where they differ at these places at most.
pub(crate) fn copy_among(to: &mut EdgeTable, from: &EdgeTable, places: &[u32])
    requires inside { All (λ place. place < PLACES) places.now }
    requires table { IsTable to.old }
    requires places { length from.now ≡ PLACES }
    requires differ { DifferAmong to.old from.now places.now }
    ensures copied { to.new ≡ from.now }
    ensures sound { IsTable from.now }
{
    for number in places {
        to.put(Place(*number), from.get(Place(*number)));
    }
}
