//! The order in which a document names picks, sides and edges, where slots are places.
ghost use Rattle.std.specs.Prelude.{◌≡◌, ◌<◌, ◌+◌};
ghost use Rattle.uhura_cert.specs.Order.{item_place, side_number, side_place, first_edge, edge_place};
ghost use Rattle.uhura_cert.specs.Machine.{in_place, end_of};

use uhura_plan::{EdgeKey, Item as Thing, Literal, REQUIREMENTS, Side, SideKey};

/// The place of a thing.
fn item_place(thing: Thing) -> u64
    ensures place { result ≡ item_place in_place thing }
    ensures below { result < 8589934592 }
{
    match thing {
        Thing::Requirement(slot) => u64::from(slot),
        Thing::Uncertain(place) => u64::from(REQUIREMENTS) + u64::from(place),
    }
}

/// The number of a side.
fn side_number(side: Side) -> u64
    ensures number { result ≡ side_number side }
    ensures below { result < 2 }
{
    match side {
        Side::Lower => 0,
        Side::Upper => 1,
    }
}

/// The place of a side.
pub(crate) fn side_place(key: SideKey) -> u64
    ensures place { result ≡ side_place in_place key }
    ensures below { result < 1152921504606846976 }
{
    2 * item_place(key.item) + side_number(key.side)
}

/// The place of the first edge of a side.
fn first_edge(key: SideKey) -> u64
    ensures place { result ≡ first_edge in_place key }
    ensures below { result < 1152921504606846976 }
{
    7 * item_place(key.item) + 3 * side_number(key.side)
}

/// The place of an edge.
pub(crate) fn edge_place(edge: EdgeKey) -> u64
    ensures place { result ≡ edge_place in_place edge }
    ensures below { result < 2305843009213693952 }
{
    match edge {
        EdgeKey::Loose(key) => first_edge(key),
        EdgeKey::Steep(key) => first_edge(key) + 1,
        EdgeKey::Firm(key) => first_edge(key) + 2,
        EdgeKey::Order(place) => 7 * (u64::from(REQUIREMENTS) + u64::from(place)) + 6,
    }
}

/// The place behind this one.
fn behind(place: u32) -> u64
    ensures { result ≡ place + 1 }
{
    u64::from(place) + 1
}

/// The place behind the last pick.
#[tactic(auto, using(crate::proofs::EndOf::end_of_last, crate::proofs::EndOf::end_of_none))]
pub(crate) fn end_of_picks(literals: &[Literal]) -> u64
    ensures { result ≡ end_of (λ l. l.choice) 0 literals.now }
{
    match literals.last() {
        Some(literal) => behind(literal.choice),
        None => 0,
    }
}

/// The place behind the last side.
#[tactic(auto, using(crate::proofs::EndOf::end_of_last, crate::proofs::EndOf::end_of_none))]
pub(crate) fn end_of_sides(sides: &[(SideKey, u64)]) -> u64
    ensures { result ≡ end_of (λ s. side_place in_place s.0) 0 sides.now }
{
    match sides.last() {
        Some((key, _)) => side_place(*key) + 1,
        None => 0,
    }
}

/// The place behind the last edge.
#[tactic(auto, using(crate::proofs::EndOf::end_of_last, crate::proofs::EndOf::end_of_none))]
pub(crate) fn end_of_edges(edges: &[(EdgeKey, u64)]) -> u64
    ensures { result ≡ end_of (λ e. edge_place in_place e.0) 0 edges.now }
{
    match edges.last() {
        Some((edge, _)) => edge_place(*edge) + 1,
        None => 0,
    }
}
