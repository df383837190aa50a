//! Sending units through a place until it has enough of them.
ghost use Rattle.std.specs.Prelude.{◌≡◌, ◌≤◌};
ghost use Rattle.uhura_net.specs.declared.edge.TheConstants.{FIRM_CAPACITY};
ghost use Rattle.uhura_net.specs.Circulation.{units_of};
ghost use Rattle.uhura_flow.specs.Turns.{IsHeld};
ghost use Rattle.uhura_flow.specs.Loops.{IsFilled, IsFull, IsFillTurn};

use crate::Through;
use crate::potentials::Potentials;
use crate::room::Room;
use crate::turning::turn;
use uhura_net::{Edge, Net, Place};

/// Sends units through a place, whose capacity stands at its units before and after, until its edge has no slack
/// below 0 or it has `most` units.
pub(crate) fn fill(
    net: &mut Net,
    potentials: &mut Potentials,
    room: &mut Room,
    place: Place,
    edge: Edge,
    most: u64,
)
    requires held { IsHeld net.old potentials.old place.0 edge }
    requires few { units_of net.old.units place.0 ≤ most }
    requires most { most ≤ FIRM_CAPACITY }
    ensures filled { IsFilled net.old net.new potentials.new place.0 edge most }
    ensures full { IsFull net.new potentials.new place.0 edge most }
{
    let units = net.units(place);
    for _round in units..most {
        if !fill_once(net, potentials, room, place, edge, most) {
            return;
        }
    }
}

/// One turn of that, where there is more to do, and whether units were sent.
fn fill_once(
    net: &mut Net,
    potentials: &mut Potentials,
    room: &mut Room,
    place: Place,
    edge: Edge,
    most: u64,
) -> bool
    requires held { IsHeld net.old potentials.old place.0 edge }
    requires few { units_of net.old.units place.0 ≤ most }
    requires most { most ≤ FIRM_CAPACITY }
    ensures filled { IsFilled net.old net.new potentials.new place.0 edge most }
    ensures turn { IsFillTurn net.old net.new potentials.new place.0 edge most result }
{
    potentials.prepare(net);
    let cap = potentials.excess(edge);
    let units = net.units(place);
    if cap == 0 || units >= most {
        return false;
    }
    let through = Through {
        place,
        edge,
        back: false,
    };
    turn(net, potentials, room, through, cap, most - units)
}
