//! The order in which a document names edges.
ghost use Rattle.std.specs.Prelude.{◌≡◌, ◌<◌, IfOk};
ghost use Rattle.uhura_cert.specs.Order.{item_place, side_number, first_edge, edge_place};
ghost use Rattle.uhura_proof.specs.Entries.{place_by, ArePlaces};

use std::alloc::{AllocError, Global};
use uhura_plan::{EdgeKey, Item, Plan, REQUIREMENTS, Side, SideKey};

/// Where the requirement in each slot stands.
pub(crate) fn places_of(alloc: Global, plan: &Plan) -> Result<Vec<u32>, AllocError>
    ensures { IfOk result (λ places. ArePlaces plan.now places.items) }
{
    let mut places = vec![in alloc; 0; REQUIREMENTS as usize]?;
    for place in 0..plan.requirements() {
        let requirement = plan.requirement(place).unwrap();
        places[requirement.slot as usize] = place;
    }
    Ok(places)
}

/// Where the requirement in a slot stands, by the table.
fn place_by(places: &[u32], slot: u32) -> u32
    ensures { result ≡ place_by places.now slot }
{
    match places.get(slot as usize) {
        Some(place) => *place,
        None => 0,
    }
}

/// The place of an item.
fn item_place(places: &[u32], item: Item) -> u64
    ensures place { result ≡ item_place (place_by places.now) item }
    ensures below { result < 8589934592 }
{
    match item {
        Item::Requirement(slot) => u64::from(place_by(places, slot)),
        Item::Uncertain(place) => u64::from(REQUIREMENTS) + u64::from(place),
    }
}

/// The number of a side.
fn side_number(side: Side) -> u64
    ensures number { result ≡ side_number side }
    ensures below { result < 2 }
{
    match side {
        Side::Lower => 0,
        Side::Upper => 1,
    }
}

/// The place of the first edge of a side.
fn first_edge(places: &[u32], key: SideKey) -> u64
    ensures place { result ≡ first_edge (place_by places.now) key }
    ensures below { result < 1152921504606846976 }
{
    7 * item_place(places, key.item) + 3 * side_number(key.side)
}

/// The place of an edge.
pub(crate) fn edge_place(places: &[u32], edge: EdgeKey) -> u64
    ensures { result ≡ edge_place (place_by places.now) edge }
{
    match edge {
        EdgeKey::Loose(key) => first_edge(places, key),
        EdgeKey::Steep(key) => first_edge(places, key) + 1,
        EdgeKey::Firm(key) => first_edge(places, key) + 2,
        EdgeKey::Order(place) => 7 * (u64::from(REQUIREMENTS) + u64::from(place)) + 6,
    }
}
