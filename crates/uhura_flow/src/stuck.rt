//! Closed walks of edges that aren't loose, whose bounds sum below 0.
ghost use Rattle.std.specs.Prelude.{◌≡◌, ◌+◌, ◌<◌, ◌≤◌, false, pos, neg_ℤ, Some, length};
ghost use Rattle.uhura_net.specs.Place.{is_loose};
ghost use Rattle.uhura_net.specs.Edges.{time_at};
ghost use Rattle.uhura_net.specs.Circulation.{edges_of};
ghost use Rattle.uhura_net.specs.Optimal.{slack_of};
ghost use Rattle.uhura_net.specs.declared.edge.Edge.{Edge};
ghost use Rattle.uhura_path.specs.Ways.{ArePotentials};
ghost use Rattle.uhura_flow.specs.Flow.{IsFlowEdge, IsOptimalNet};
ghost use Rattle.uhura_flow.specs.Placing.{IsStuckFound};

use crate::potentials::Potentials;
use crate::room::Room;
use crate::round::join;
use uhura_net::{Edge, FIRM_CAPACITY, NODES, Net, PLACES, Place};
use uhura_path::{NO_CAP, Task, Ways, search};

/// Looks for a closed walk of edges that aren't loose, with an edge that is to stand at a place, whose bounds sum
/// below 0. It writes its places to the front of `cycle` and says how many they are, where there is one. A loose edge
/// closes none, and neither does one whose bound the potentials don't pass.
pub(crate) fn find_stuck(
    net: &Net,
    potentials: &mut Potentials,
    room: &mut Room,
    place: Place,
    edge: Edge,
    cycle: &mut [Place],
) -> Option<usize>
    requires place { place.0 < PLACES }
    requires sound { IsOptimalNet net.now potentials.old }
    requires edge { IsFlowEdge place.0 edge }
    requires alike { (other : Edge) → edges_of net.now.edges place.0 ≡ Some other →
        other.from ≡ edge.from }
    requires room { length cycle.old ≡ NODES + 1 }
    ensures sound { IsOptimalNet net.now potentials.new }
    ensures room { length cycle.new ≡ NODES + 1 }
    ensures found { IsStuckFound net.now.edges place.0 edge cycle.old cycle.new result }
{
    if edge.capacity < FIRM_CAPACITY {
        return None;
    }
    potentials.prepare(net);
    let cap = potentials.excess(edge);
    if cap == 0 {
        return None;
    }
    close_walk(net, potentials, room, place, edge, cap, cycle)
}

/// The same for an edge that isn't loose, whose bound the potentials pass by `cap`.
fn close_walk(
    net: &Net,
    potentials: &Potentials,
    room: &mut Room,
    place: Place,
    edge: Edge,
    cap: u64,
    cycle: &mut [Place],
) -> Option<usize>
    requires place { place.0 < PLACES }
    requires firm { is_loose place.0 ≡ false }
    requires sound { IsOptimalNet net.now potentials.now }
    requires potentials { ArePotentials potentials.now }
    requires edge { IsFlowEdge place.0 edge }
    requires alike { (other : Edge) → edges_of net.now.edges place.0 ≡ Some other →
        other.from ≡ edge.from }
    requires cap { pos cap ≡ neg_ℤ (slack_of (time_at potentials.now) edge) }
    requires few { cap ≤ NO_CAP }
    requires room { length cycle.old ≡ NODES + 1 }
    ensures room { length cycle.new ≡ NODES + 1 }
    ensures found { IsStuckFound net.now.edges place.0 edge cycle.old cycle.new result }
{
    let task = Task {
        root: edge.from,
        goal: edge.to,
        cap,
    };
    let found = search(
        net,
        Ways::Firm,
        potentials.values(),
        task,
        &mut room.scratch,
    );
    match found.path {
        Some(path) => {
            join(
                cycle,
                &mut room.round.backward,
                place,
                false,
                path.places,
                path.backward,
            );
            Some(path.places.len() + 1)
        }
        None => None,
    }
}
