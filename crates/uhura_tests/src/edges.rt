//! Edges at the places of the first slots.
ghost use Rattle.std.specs.Prelude.{◌≡◌, ◌≢◌, ◌<◌, ◌≤◌, pos, negsuc, ◌≤ℤ◌};
ghost use Rattle.uhura_plan.specs.Limits.{IsUnitPrice};
ghost use Rattle.uhura_net.specs.Place.{is_loose};
ghost use Rattle.uhura_flow.specs.Flow.{IsFlowEdge};

use uhura_net::{Edge, FIRM_CAPACITY, NODES, Place};

/// The places of six slots.
pub(crate) const NEAR: u32 = 24;

/// Whether the place is loose.
pub(crate) fn is_loose(place: Place) -> bool
    requires { place.0 < NEAR }
    ensures { result ≡ is_loose place.0 }
{
    let row = place.0 % 4;
    row == 0 || row == 2
}

/// An edge for the place, at the price where the place is loose.
pub(crate) fn edge_for(place: Place, from: u32, to: u32, bound: i64, price: u64) -> Edge
    requires place { place.0 < NEAR }
    requires from { from < NODES }
    requires to { to < NODES }
    requires apart { from ≢ to }
    requires least { negsuc 1999999999 ≤ℤ bound }
    requires most { bound ≤ℤ pos 2000000000 }
    requires price { IsUnitPrice price }
    ensures { IsFlowEdge place.0 result }
{
    let capacity = if is_loose(place) {
        price
    } else {
        FIRM_CAPACITY
    };
    Edge {
        from,
        to,
        bound,
        capacity,
    }
}
