//! What comes to stand at a place: each function leaves all optimal.
ghost use Rattle.std.specs.Prelude.{◌≡◌, ◌+◌, ◌<◌, ◌≤◌, pos, ◌≤ℤ◌, true, None, Some, length, slice_set};
ghost use Rattle.uhura_net.specs.Edges.{time_at};
ghost use Rattle.uhura_net.specs.Circulation.{edges_of, units_of};
ghost use Rattle.uhura_net.specs.Optimal.{slack_of};
ghost use Rattle.uhura_flow.specs.Flow.{IsFlowEdge, IsOptimalNet};
ghost use Rattle.uhura_plan.specs.Limits.{IsUnitPrice};
ghost use Rattle.uhura_net.specs.Place.{is_loose};
ghost use Rattle.uhura_flow.specs.Turns.{IsHeld, with_capacity};
ghost use Rattle.uhura_flow.specs.Loops.{with_bound, IsBoundOf};
ghost use Rattle.uhura_flow.specs.Placing.{AreFlowEdgesBut, IsPossible, IsPlaced};

use crate::draining::drain;
use crate::filling::fill;
use crate::potentials::Potentials;
use crate::room::Room;
use crate::sending::hold;
use uhura_net::{Edge, Net, PLACES, Place};

/// Puts an edge at an empty place.
pub(crate) fn put_in(
    net: &mut Net,
    potentials: &mut Potentials,
    room: &mut Room,
    place: Place,
    edge: Edge,
)
    requires place { place.0 < PLACES }
    requires sound { IsOptimalNet net.old potentials.old }
    requires empty { edges_of net.old.edges place.0 ≡ None }
    requires edge { IsFlowEdge place.0 edge }
    requires possible { IsPossible (slice_set net.old.edges place.0 (Some edge)) }
    ensures { IsPlaced net.old net.new potentials.new place.0 (Some edge) }
{
    hold(net, place, edge, 0);
    tighten(net, potentials, room, place, edge);
}

/// Takes the edge out of a place.
pub(crate) fn take_out(
    net: &mut Net,
    potentials: &mut Potentials,
    room: &mut Room,
    place: Place,
    edge: Edge,
)
    requires place { place.0 < PLACES }
    requires sound { IsOptimalNet net.old potentials.old }
    requires there { edges_of net.old.edges place.0 ≡ Some edge }
    ensures { IsPlaced net.old net.new potentials.new place.0 None }
{
    let units = net.units(place);
    hold(net, place, edge, units);
    drain(net, potentials, room, place, edge, None, 0);
    let _values = potentials.values();
    net.set(place, None);
}

/// Gives the edge at a place another bound.
pub(crate) fn rebind(
    net: &mut Net,
    potentials: &mut Potentials,
    room: &mut Room,
    place: Place,
    old: Edge,
    edge: Edge,
)
    requires place { place.0 < PLACES }
    requires sound { IsOptimalNet net.old potentials.old }
    requires there { edges_of net.old.edges place.0 ≡ Some old }
    requires alike { edge ≡ with_bound old edge.bound }
    requires bound { IsBoundOf edge.bound }
    requires possible { IsPossible (slice_set net.old.edges place.0 (Some edge)) }
    ensures { IsPlaced net.old net.new potentials.new place.0 (Some edge) }
{
    if potentials.excess(edge) == 0 {
        loosen(net, potentials, room, place, old, edge);
    } else {
        let units = net.units(place);
        hold(net, place, edge, units);
        tighten(net, potentials, room, place, edge);
    }
}

/// Gives the loose edge at a place another capacity.
pub(crate) fn repay(
    net: &mut Net,
    potentials: &mut Potentials,
    room: &mut Room,
    place: Place,
    old: Edge,
    edge: Edge,
)
    requires place { place.0 < PLACES }
    requires loose { is_loose place.0 ≡ true }
    requires sound { IsOptimalNet net.old potentials.old }
    requires there { edges_of net.old.edges place.0 ≡ Some old }
    requires alike { edge ≡ with_capacity old edge.capacity }
    requires price { IsUnitPrice edge.capacity }
    ensures { IsPlaced net.old net.new potentials.new place.0 (Some edge) }
{
    let units = net.units(place);
    if units <= edge.capacity {
        hold(net, place, edge, units);
        tighten(net, potentials, room, place, edge);
    } else {
        lessen(net, potentials, room, place, old, edge);
    }
}

/// Takes units from a place, until the loose edge there can have a smaller capacity.
fn lessen(
    net: &mut Net,
    potentials: &mut Potentials,
    room: &mut Room,
    place: Place,
    old: Edge,
    edge: Edge,
)
    requires place { place.0 < PLACES }
    requires loose { is_loose place.0 ≡ true }
    requires sound { IsOptimalNet net.old potentials.old }
    requires there { edges_of net.old.edges place.0 ≡ Some old }
    requires alike { edge ≡ with_capacity old edge.capacity }
    requires price { IsUnitPrice edge.capacity }
    requires less { edge.capacity ≤ units_of net.old.units place.0 }
    ensures { IsPlaced net.old net.new potentials.new place.0 (Some edge) }
{
    let units = net.units(place);
    hold(net, place, old, units);
    drain(net, potentials, room, place, old, None, edge.capacity);
    let _values = potentials.values();
    net.set(place, Some(edge));
}

/// Takes units from a place, until its edge is optimal under another bound that isn't passed.
fn loosen(
    net: &mut Net,
    potentials: &mut Potentials,
    room: &mut Room,
    place: Place,
    old: Edge,
    edge: Edge,
)
    requires place { place.0 < PLACES }
    requires sound { IsOptimalNet net.old potentials.old }
    requires there { edges_of net.old.edges place.0 ≡ Some old }
    requires alike { edge ≡ with_bound old edge.bound }
    requires bound { IsBoundOf edge.bound }
    requires spare { pos 0 ≤ℤ slack_of (time_at potentials.old) edge }
    requires possible { IsPossible (slice_set net.old.edges place.0 (Some edge)) }
    ensures { IsPlaced net.old net.new potentials.new place.0 (Some edge) }
{
    let units = net.units(place);
    hold(net, place, old, units);
    drain(net, potentials, room, place, old, Some(edge.bound), 0);
    let _values = potentials.values();
    net.set(place, Some(edge));
}

/// Adds units to a place, whose capacity stands at its units, until its edge with its capacity is optimal.
fn tighten(net: &mut Net, potentials: &mut Potentials, room: &mut Room, place: Place, edge: Edge)
    requires held { IsHeld net.old potentials.old place.0 edge }
    requires units { units_of net.old.units place.0 ≤ edge.capacity }
    requires edge { IsFlowEdge place.0 edge }
    requires placed { AreFlowEdgesBut place.0 net.old.edges }
    requires possible { IsPossible (slice_set net.old.edges place.0 (Some edge)) }
    ensures { IsPlaced net.old net.new potentials.new place.0 (Some edge) }
{
    fill(net, potentials, room, place, edge, edge.capacity);
    let _values = potentials.values();
    hold(net, place, edge, edge.capacity);
}
