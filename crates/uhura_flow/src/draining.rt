//! Sending units back through a place until it has few enough of them.
ghost use Rattle.std.specs.Prelude.{◌≡◌, ◌≤◌, ℤ, pos, negsuc, ◌≤ℤ◌, IfSome};
ghost use Rattle.uhura_net.specs.Circulation.{units_of};
ghost use Rattle.uhura_net.specs.Net.{IsNetEdge};
ghost use Rattle.uhura_path.specs.Ways.{ArePotentials};
ghost use Rattle.uhura_flow.specs.Turns.{IsHeld};
ghost use Rattle.uhura_flow.specs.Loops.{IsDrained, IsEmptied, IsDrainTurn, reserve_of, IsBoundOf};

use crate::Through;
use crate::potentials::Potentials;
use crate::room::Room;
use crate::turning::turn;
use uhura_net::{Edge, Net, Place};
use uhura_path::NO_CAP;

/// Sends units back through a place, whose capacity stands at its units before and after, until it has `least` units
/// or, where a new bound is given, its edge has no slack above 0 under that one.
pub(crate) fn drain(
    net: &mut Net,
    potentials: &mut Potentials,
    room: &mut Room,
    place: Place,
    edge: Edge,
    target: Option<i64>,
    least: u64,
)
    requires held { IsHeld net.old potentials.old place.0 edge }
    requires few { least ≤ units_of net.old.units place.0 }
    requires target { IfSome target IsBoundOf }
    ensures drained { IsDrained net.old potentials.old net.new potentials.new place.0 edge
        target least }
    ensures empty { IsEmptied net.new potentials.new place.0 edge target least }
{
    let units = net.units(place);
    for _round in least..units {
        if !drain_once(net, potentials, room, place, edge, target, least) {
            return;
        }
    }
}

/// One turn of that, where there is more to do, and whether units were sent.
fn drain_once(
    net: &mut Net,
    potentials: &mut Potentials,
    room: &mut Room,
    place: Place,
    edge: Edge,
    target: Option<i64>,
    least: u64,
) -> bool
    requires held { IsHeld net.old potentials.old place.0 edge }
    requires few { least ≤ units_of net.old.units place.0 }
    requires target { IfSome target IsBoundOf }
    ensures drained { IsDrained net.old potentials.old net.new potentials.new place.0 edge
        target least }
    ensures turn { IsDrainTurn net.old net.new potentials.new place.0 edge target least result }
{
    potentials.prepare(net);
    let cap = reserve(potentials, edge, target);
    let units = net.units(place);
    if cap == 0 || units <= least {
        return false;
    }
    let through = Through {
        place,
        edge,
        back: true,
    };
    turn(net, potentials, room, through, cap, units - least)
}

/// How far a path may be for units to be taken.
fn reserve(potentials: &Potentials, edge: Edge, target: Option<i64>) -> u64
    requires edge { IsNetEdge edge }
    requires potentials { ArePotentials potentials.now }
    requires target { IfSome target IsBoundOf }
    ensures reserve { result ≡ reserve_of potentials.now edge target }
    ensures fits { result ≤ NO_CAP }
{
    match target {
        None => NO_CAP,
        Some(bound) => potentials.spare(Edge { bound, ..edge }),
    }
}
