//! Where two tables differ.
ghost use Rattle.std.specs.Prelude.{◌≡◌, ◌<◌, IsTrue, IsFalse, length, All, slice_index_or, false};
ghost use Rattle.uhura_net.specs.declared.place.TheConstants.{PLACES};
ghost use Rattle.uhura_net.specs.Table.{IsTable};
ghost use Rattle.uhura_conflict.specs.Marked.{AreMarked, IsUnmarked, DifferAmong, AreMarksAmong, AreCleared};

use uhura_net::{Edge, EdgeTable, PLACES, Place};

/// Marks the places at which the tables differ, and tells whether there are any.
pub(crate) fn mark_changed(old: &EdgeTable, new: &EdgeTable, changed: &mut Vec<bool>) -> bool
    requires { length changed.old.items ≡ PLACES }
    ensures marked { AreMarked old.now new.now changed.new.items }
    ensures same { IsFalse result → new.now ≡ old.now }
    ensures none { IsFalse result → AreCleared changed.new.items }
{
    let mut any = false;
    for number in 0..PLACES as u32 {
        let same = is_same(old.get(Place(number)), new.get(Place(number)));
        changed[number as usize] = !same;
        any = any || !same;
    }
    any
}

/// Marks the places at which the tables differ, which are all among these, and tells whether there are any.
pub(crate) fn mark_among(
    old: &EdgeTable,
    new: &EdgeTable,
    places: &[u32],
    changed: &mut Vec<bool>,
) -> bool
    requires inside { All (λ place. place < PLACES) places.now }
    requires table { IsTable old.now }
    requires differ { DifferAmong old.now new.now places.now }
    requires cleared { AreCleared changed.old.items }
    ensures marked { AreMarked old.now new.now changed.new.items }
    ensures among { AreMarksAmong changed.new.items places.now }
    ensures places { length new.now ≡ PLACES }
    ensures same { IsFalse result → new.now ≡ old.now }
    ensures none { IsFalse result → AreCleared changed.new.items }
{
    // By its type the table has all places.
    let _ = new.get(Place(0));
    let mut any = false;
    for number in places {
        if !is_same(old.get(Place(*number)), new.get(Place(*number))) {
            changed[*number as usize] = true;
            any = true;
        }
    }
    any
}

/// Clears all marks, which stand at these places at most.
pub(crate) fn unmark(changed: &mut Vec<bool>, places: &[u32])
    requires inside { All (λ place. place < PLACES) places.now }
    requires marks { length changed.old.items ≡ PLACES }
    requires among { AreMarksAmong changed.old.items places.now }
    ensures { AreCleared changed.new.items }
{
    for number in places {
        changed[*number as usize] = false;
    }
}

/// Whether the two edges are one, or neither is there.
fn is_same(a: Option<Edge>, b: Option<Edge>) -> bool
    ensures { IsTrue result → b ≡ a }
{
    match (a, b) {
        (Some(a), Some(b)) => {
            a.from == b.from && a.to == b.to && a.bound == b.bound && a.capacity == b.capacity
        }
        (None, None) => true,
        _ => false,
    }
}

/// Whether one of the places is marked.
pub(crate) fn touches(pairs: &[(Place, u64)], changed: &[bool]) -> bool
    requires inside { All (λ pair. pair.0.0 < PLACES) pairs.now }
    requires marks { length changed.now ≡ PLACES }
    ensures { IsFalse result → All (IsUnmarked changed.now) pairs.now }
{
    for (place, _) in pairs {
        if changed[place.0 as usize] {
            return true;
        }
    }
    false
}
