//! The sides of requirements and durations.
ghost use Rattle.std.specs.Prelude.{◌≡◌};
ghost use Rattle.uhura_worst.specs.Examples.{requirement_side, duration_side};

use uhura_plan::{Item, Requirement, Side, SideKey};

/// A side of a requirement.
pub(crate) fn requirement_side(requirement: &Requirement, side: Side) -> SideKey
    ensures { result ≡ requirement_side requirement.now.slot side }
{
    SideKey {
        item: Item::Requirement(requirement.slot),
        side,
    }
}

/// A side of the duration in a place.
pub(crate) fn duration_side(duration: u32, side: Side) -> SideKey
    ensures { result ≡ duration_side duration side }
{
    SideKey {
        item: Item::Uncertain(duration),
        side,
    }
}
