//! What was learned, as a shared entry.
ghost use Rattle.std.specs.Prelude.{◌≡◌, ◌<◌, All, map, IfOk};
ghost use Rattle.std.specs.List.Sorted.{IsPermutation};
ghost use Rattle.uhura_net.specs.declared.place.TheConstants.{PLACES};
ghost use Rattle.uhura_dual.specs.Settled.{key_at};
ghost use Rattle.uhura_conflict.specs.Learned.{places_in};
ghost use Rattle.uhura_proof.specs.Entries.{place_by, keyed, AreInOrder, IsEntryFor};

use crate::order::edge_place;
use std::alloc::{AllocError, Global};
use uhura_cert::{Listed, Shared};
use uhura_conflict::Conflict;
use uhura_net::{Place, key_of};
use uhura_plan::EdgeKey;

/// The shared entry of what was learned: the edges of a flow in the plan's order, by a table of places, or the edges
/// of a walk in its own.
pub(crate) fn entry_of(
    alloc: Global,
    places: &[u32],
    conflict: &Conflict,
) -> Result<Shared, AllocError>
    ensures { IfOk result (IsEntryFor (place_by places.now) conflict.now) }
{
    let pairs = conflict.units();
    if conflict.is_stuck() {
        Ok(Shared::Stuck(Listed::from_vec(walk_edges(alloc, pairs)?)))
    } else {
        Ok(Shared::Flow(Listed::from_vec(flow_edges(alloc, places, pairs)?)))
    }
}

/// The edges at these places, in their order.
fn walk_edges(alloc: Global, pairs: &[(Place, u64)]) -> Result<Vec<EdgeKey>, AllocError>
    requires { All (λ pair. pair.0.0 < PLACES) pairs.now }
    ensures { IfOk result (λ edges.
        edges.items ≡ map (λ place. key_at place.0) (places_in pairs.now)) }
{
    let mut edges = Vec::new(alloc);
    for (place, _) in pairs {
        edges.push(key_at(*place))?;
    }
    Ok(edges)
}

/// The edges at these places with their units, in the plan's order.
fn flow_edges(
    alloc: Global,
    places: &[u32],
    pairs: &[(Place, u64)],
) -> Result<Vec<(EdgeKey, u64)>, AllocError>
    requires { All (λ pair. pair.0.0 < PLACES) pairs.now }
    ensures same { IfOk result (λ edges. IsPermutation (keyed pairs.now) edges.items) }
    ensures in_order { IfOk result (λ edges. AreInOrder (place_by places.now) edges.items) }
{
    let mut edges = keyed(alloc, pairs)?;
    edges.sort_unstable_by_key(|edge| edge_place(places, edge.0));
    Ok(edges)
}

/// The edges at these places with their units.
fn keyed(alloc: Global, pairs: &[(Place, u64)]) -> Result<Vec<(EdgeKey, u64)>, AllocError>
    requires { All (λ pair. pair.0.0 < PLACES) pairs.now }
    ensures { IfOk result (λ edges. edges.items ≡ keyed pairs.now) }
{
    let mut edges = Vec::new(alloc);
    for (place, units) in pairs {
        edges.push((key_at(*place), *units))?;
    }
    Ok(edges)
}

/// The edge at a place.
fn key_at(place: Place) -> EdgeKey
    requires { place.0 < PLACES }
    ensures { result ≡ key_at place.0 }
{
    key_of(place)
}
