//! The edges of a state, looked up in a table.
ghost use Rattle.std.specs.Prelude.{◌≡◌, is_some};
ghost use Rattle.uhura_net.specs.Place.{HasPlace};
ghost use Rattle.uhura_worst.specs.Filled.{entry_at};
ghost use Rattle.uhura_check.specs.Edges.{edge_in, IsSmallEdge};

use uhura_net::{Edge, EdgeTable, place_of};
use uhura_plan::EdgeKey;

/// The edge of a key, read as one that can carry nothing where it isn't there.
pub(crate) fn edge_in(table: &EdgeTable, key: EdgeKey) -> Edge
    requires { HasPlace key }
    ensures edge { result ≡ edge_in table.now key }
    ensures small { IsSmallEdge result }
{
    match table.get(place_of(key)) {
        Some(edge) => edge,
        None => Edge {
            from: 0,
            to: 0,
            bound: 0,
            capacity: 0,
        },
    }
}

/// Whether the edge of a key is there.
pub(crate) fn has_edge(table: &EdgeTable, key: EdgeKey) -> bool
    requires { HasPlace key }
    ensures { result ≡ is_some (entry_at table.now key) }
{
    table.get(place_of(key)).is_some()
}
