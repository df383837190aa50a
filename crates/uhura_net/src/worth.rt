//! What units are worth at the bounds of their edges.
ghost use Rattle.std.specs.Prelude.{◌≡◌, pos, ◌+ℤ◌, ◌-ℤ◌, ◌*ℤ◌, unwrap_or};
ghost use Rattle.uhura_net.specs.declared.place.TheConstants.{PLACES};
ghost use Rattle.uhura_net.specs.Edges.{no_edge};
ghost use Rattle.uhura_net.specs.Worth.{IsSmallWorth, IsSmall};

use crate::Edge;

/// The bound of an edge times its units.
pub(crate) fn worth_at(edge: Option<Edge>, units: u64) -> i128
    requires { IsSmall (unwrap_or edge no_edge) units }
    ensures worth { result ≡ pos units *ℤ (unwrap_or edge no_edge).bound }
    ensures small { IsSmallWorth 1 result }
{
    match edge {
        Some(edge) => i128::from(units) * i128::from(edge.bound),
        None => 0,
    }
}

/// The value of a net where an edge takes over the units of another.
pub(crate) fn change_value(value: i128, old: Option<Edge>, new: Option<Edge>, units: u64) -> i128
    requires value { IsSmallWorth PLACES value }
    requires old { IsSmall (unwrap_or old no_edge) units }
    requires new { IsSmall (unwrap_or new no_edge) units }
    ensures { result ≡ (value +ℤ (pos units *ℤ (unwrap_or old no_edge).bound))
        -ℤ (pos units *ℤ (unwrap_or new no_edge).bound) }
{
    value + worth_at(old, units) - worth_at(new, units)
}

/// The value of a net where units go around a cycle of edges with these bounds.
pub(crate) fn push_value(value: i128, units: u64, bounds: i128) -> i128
    requires before { IsSmallWorth PLACES value }
    requires after { IsSmallWorth PLACES (value -ℤ (pos units *ℤ bounds)) }
    ensures { result ≡ value -ℤ (pos units *ℤ bounds) }
{
    value - i128::from(units) * bounds
}
