//! What units on edges are worth.
ghost use Rattle.std.specs.Prelude.{◌≡◌, ◌*◌, ◌*ℤ◌, pos};
ghost use Rattle.uhura_veto.specs.State.{State};
ghost use Rattle.uhura_worst.specs.Filled.{IsTableOf};
ghost use Rattle.uhura_shows.specs.Carried.{value_of_pairs};
ghost use Rattle.uhura_check.specs.Edges.{IsWithin, IsSmallEdge, AreFew, most_edges, greatest_worth};

use crate::edges::edge_in;
use uhura_net::{Edge, EdgeTable};
use uhura_plan::EdgeKey;

/// Minus the sum of the bounds times the units. There are at most 16,128 edges, with less than 2^64 units on each and
/// bounds of at most 20,000,000,000,000 either way, so that the sum is far within an `i128`.
pub(crate) fn flow_value(table: &EdgeTable, pairs: &[(EdgeKey, u64)]) -> i128
    requires { AreFew pairs.now }
    ensures value { (state : State) → IsTableOf state table.now →
        result ≡ value_of_pairs state pairs.now }
    ensures small { IsWithin (most_edges * greatest_worth) result }
{
    let mut sum = 0;
    for place in 0..pairs.len() {
        let (key, units) = pairs[place];
        sum += worth(edge_in(table, key), units);
    }
    -sum
}

/// The bound of an edge times its units.
fn worth(edge: Edge, units: u64) -> i128
    requires { IsSmallEdge edge }
    ensures worth { result ≡ pos units *ℤ edge.bound }
    ensures small { IsWithin greatest_worth result }
{
    i128::from(units) * i128::from(edge.bound)
}
