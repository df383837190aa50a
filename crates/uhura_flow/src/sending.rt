//! Sending units around a cycle.
ghost use Rattle.std.specs.Prelude.{◌≡◌, ◌+◌, ◌^◌, ◌<◌, ◌≤◌, ◌∷◌, ℤ, List, Some, IsFalse, length};
ghost use Rattle.uhura_net.specs.Circulation.{units_of};
ghost use Rattle.uhura_net.specs.Residual.{IsPushed};
ghost use Rattle.uhura_net.specs.Net.{IsNetEdge, IsNet, MayBeSet, IsNetCycle};
ghost use Rattle.uhura_flow.specs.Turns.{with_capacity, edges_held, room_for, IsReady, IsSent};

use crate::Through;
use crate::round::{Round, join};
use uhura_net::{Edge, NODES, Net, PLACES, Place};

/// Sends units through a place, whose capacity stands at its units before and after, and along a walk that closes a
/// cycle with it.
pub(crate) fn send(
    net: &mut Net,
    through: Through,
    places: &[Place],
    backward: &[bool],
    amount: u64,
    round: &mut Round,
)
    requires { (potentials : List ℤ) ×
        IsReady net.old potentials through places.now backward.now amount }
    ensures { (potentials : List ℤ) →
        IsReady net.old potentials through places.now backward.now amount →
        IsSent net.old net.new potentials through amount }
{
    let units = net.units(through.place);
    let room = room_for(through.back, units, amount);
    hold(net, through.place, through.edge, room);
    push_around(net, through, places, backward, amount, round);
    let units = net.units(through.place);
    hold(net, through.place, through.edge, units);
}

/// The capacity that a place with some units needs while units are sent along its edge or back.
fn room_for(back: bool, units: u64, amount: u64) -> u64
    requires { IsFalse back → units + amount < 2 ^ 64 }
    ensures { result ≡ room_for back units amount }
{
    if back { units } else { units + amount }
}

/// Puts an edge with a capacity at a place.
pub(crate) fn hold(net: &mut Net, place: Place, edge: Edge, capacity: u64)
    requires place { place.0 < PLACES }
    requires edge { IsNetEdge (with_capacity edge capacity) }
    requires units { MayBeSet net.old place.0 (Some (with_capacity edge capacity)) }
    ensures net { net.new ≡ record net.old { edges = edges_held net.old place.0 edge capacity } }
    ensures sound { IsNet net.new }
{
    net.set(place, Some(Edge { capacity, ..edge }));
}

/// Pushes units along a place and the walk that closes a cycle with it.
fn push_around(
    net: &mut Net,
    through: Through,
    places: &[Place],
    backward: &[bool],
    amount: u64,
    round: &mut Round,
)
    requires few { length places.now ≤ NODES }
    requires steps { length backward.now ≡ length places.now }
    requires cycle { IsNetCycle net.old (through.place ∷ places.now)
        (through.back ∷ backward.now) amount }
    ensures edges { net.new.edges ≡ net.old.edges }
    ensures units { IsPushed (through.place ∷ places.now) (through.back ∷ backward.now) amount
        (units_of net.old.units) (units_of net.new.units) }
    ensures more { net.old.pushes ≤ net.new.pushes }
    ensures few { net.new.pushes ≤ net.old.pushes + 1 }
    ensures sound { IsNet net.new }
{
    let _pushes = net.pushes();
    let count = places.len() + 1;
    join(
        &mut round.places,
        &mut round.backward,
        through.place,
        through.back,
        places,
        backward,
    );
    net.push(&round.places[..count], &round.backward[..count], amount);
}
