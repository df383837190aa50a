//! The nodes of the worst case: controllable event `e` is node `e`, and the ends of duration `d` are read at two
//! nodes of their own, from 512 on.
ghost use Rattle.std.specs.Prelude.{◌≡◌, ◌<◌};
ghost use Rattle.uhura_net.specs.declared.edge.TheConstants.{NODES};
ghost use Rattle.uhura_plan.specs.declared.key.Item.TheVariants as item;
ghost use Rattle.uhura_net.specs.Place.{IsPlacedItem};
ghost use Rattle.uhura_worst.specs.Nodes.{least_end, greatest_end, least_node, greatest_node, HasNode};

use uhura_plan::EventRef;

/// The first node that is an end of a duration.
const FIRST_OF_ENDS: u32 = 512;

/// The node of the least end of the duration in this place.
pub(crate) fn least_end(duration: u32) -> u32
    requires { IsPlacedItem (item.Uncertain duration) }
    ensures node { result ≡ least_end duration }
    ensures below { result < NODES }
{
    FIRST_OF_ENDS + 2 * duration
}

/// The node of its greatest end.
pub(crate) fn greatest_end(duration: u32) -> u32
    requires { IsPlacedItem (item.Uncertain duration) }
    ensures node { result ≡ greatest_end duration }
    ensures below { result < NODES }
{
    least_end(duration) + 1
}

/// The node at which an event is read where it may be too early.
pub(crate) fn least_node(event: EventRef) -> u32
    requires { HasNode event }
    ensures node { result ≡ least_node event }
    ensures below { result < NODES }
{
    match event {
        EventRef::Controllable(event) => event,
        EventRef::End(duration) => least_end(duration),
    }
}

/// The node at which an event is read where it may be too late.
pub(crate) fn greatest_node(event: EventRef) -> u32
    requires { HasNode event }
    ensures node { result ≡ greatest_node event }
    ensures below { result < NODES }
{
    match event {
        EventRef::Controllable(event) => event,
        EventRef::End(duration) => greatest_end(duration),
    }
}
