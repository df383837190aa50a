//! What pairs are worth at the bounds of a table, and whether they outlast its change.
ghost use Rattle.std.specs.Prelude.{◌≡◌, ◌<◌, ◌≤◌, pos, ◌*ℤ◌, IsFalse, length, unwrap_or};
ghost use Rattle.std.specs.List.{All, list_all};
ghost use Rattle.uhura_net.specs.declared.place.TheConstants.{PLACES};
ghost use Rattle.uhura_net.specs.Edges.{edge_at, no_edge};
ghost use Rattle.uhura_net.specs.Walk.{edges_at, bounds_of};
ghost use Rattle.uhura_net.specs.Circulation.{edges_of};
ghost use Rattle.uhura_conflict.specs.Learned.{IsLearned, places_in, flow_value};
ghost use Rattle.uhura_conflict.specs.Worth.{IsWithin, greatest_bound, greatest_worth};
ghost use Rattle.uhura_conflict.specs.Kept.{carries, still_carries, outlasts};

use crate::Conflict;
use uhura_net::{Edge, EdgeTable, Place};

/// What a conflict is worth, if it is a flow.
pub(crate) fn flow_worth(conflict: &Conflict, table: &EdgeTable) -> i128
    ensures worth { IsFalse conflict.now.stuck →
        result ≡ flow_value (edges_of table.now) conflict.now.pairs }
    ensures learned { IsLearned conflict.now }
{
    let pairs = conflict.units();
    if conflict.is_stuck() {
        return 0;
    }
    pairs_worth(pairs, table)
}

/// Minus the sum of the bounds times the units.
fn pairs_worth(pairs: &[(Place, u64)], table: &EdgeTable) -> i128
    requires inside { All (λ pair. pair.0.0 < PLACES) pairs.now }
    requires few { length pairs.now ≤ PLACES }
    ensures { result ≡ flow_value (edges_of table.now) pairs.now }
{
    let mut sum = 0;
    for (place, units) in pairs {
        sum += worth_at(*units, bound_at(table, *place));
    }
    -sum
}

/// A bound times units.
fn worth_at(units: u64, bound: i64) -> i128
    requires { IsWithin greatest_bound bound }
    ensures worth { result ≡ pos units *ℤ bound }
    ensures small { IsWithin greatest_worth result }
{
    i128::from(units) * i128::from(bound)
}

/// The bound of the edge at a place, 0 where there is none.
fn bound_at(table: &EdgeTable, place: Place) -> i64
    requires { place.0 < PLACES }
    ensures bound { result ≡ (edge_at (edges_of table.now) place.0).bound }
    ensures small { IsWithin greatest_bound result }
{
    match table.get(place) {
        Some(edge) => edge.bound,
        None => 0,
    }
}

/// Whether no edge of a conflict is gone, each can carry its units, and a firm cycle still sums below 0.
pub(crate) fn outlasts(conflict: &Conflict, old: &EdgeTable, new: &EdgeTable) -> bool
    ensures { result ≡ outlasts (edges_of old.now) (edges_of new.now) conflict.now }
{
    let pairs = conflict.units();
    if !are_carried(pairs, old, new) {
        return false;
    }
    !conflict.is_stuck() || bounds_along(pairs, new) < 0
}

/// Whether at each place there still is an edge between the same nodes, which can carry the units.
fn are_carried(pairs: &[(Place, u64)], old: &EdgeTable, new: &EdgeTable) -> bool
    requires { All (λ pair. pair.0.0 < PLACES) pairs.now }
    ensures { result ≡ list_all (still_carries (edges_of old.now) (edges_of new.now)) pairs.now }
{
    for (place, units) in pairs {
        if !is_carried(old.get(*place), new.get(*place), *units) {
            return false;
        }
    }
    true
}

/// Whether there still is an edge between the same nodes, which can carry the units.
fn is_carried(old: Option<Edge>, new: Option<Edge>, units: u64) -> bool
    ensures { result ≡ carries (unwrap_or old no_edge) new units }
{
    let Some(edge) = new else {
        return false;
    };
    let (from, to) = match old {
        Some(before) => (before.from, before.to),
        None => (0, 0),
    };
    from == edge.from && to == edge.to && units <= edge.capacity
}

/// The sum of the bounds along a walk.
fn bounds_along(pairs: &[(Place, u64)], table: &EdgeTable) -> i128
    requires { All (λ pair. pair.0.0 < PLACES) pairs.now }
    ensures { result ≡ bounds_of (edges_at (edges_of table.now) (places_in pairs.now)) }
{
    let mut sum = 0;
    for (place, _) in pairs {
        sum += i128::from(bound_at(table, *place));
    }
    sum
}
