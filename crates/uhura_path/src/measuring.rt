//! All distances from a node.
ghost use Rattle.std.specs.Prelude.{ℕ, ◌≡◌, ◌≢◌, ◌<◌, ◌≤◌, None, length, take, slice_index_or};
ghost use Rattle.uhura_net.specs.declared.edge.TheConstants.{NODES};
ghost use Rattle.uhura_net.specs.Edges.{time_at};
ghost use Rattle.uhura_net.specs.Net.{IsNet};
ghost use Rattle.uhura_path.specs.declared.task.TheConstants.{NO_CAP};
ghost use Rattle.uhura_path.specs.declared.ways.Ways.TheVariants.{Residual};
ghost use Rattle.uhura_path.specs.Ways.{walkable, NoneIsBelow, ArePotentials, arcs_of};
ghost use Rattle.uhura_path.specs.Found.{label_at};
ghost use Rattle.uhura_path.specs.Scratch.{AreMarkedTo};
ghost use Rattle.uhura_path.specs.Reach.{AreDistancesFrom, IsReach, told_distance};

use crate::quest::Quest;
use crate::searching::next_mark;
use crate::spreading::spread;
use crate::task::NO_CAP;
use crate::tracing::trace;
use crate::{Label, Path, PathScratch, Reach, Task, Ways};
use uhura_net::{NODES, Net};

/// The distance of each node from one, and a shortest path to another, along residual edges by their reduced costs
/// under the potentials. It takes no memory, and works at the nodes and edges that it reaches, but for a distance that
/// it writes for each node.
pub fn shortest<'a>(
    net: &Net,
    potentials: &[i64],
    from: u32,
    to: u32,
    scratch: &'a mut PathScratch,
) -> Reach<'a>
    requires net { IsNet net.now }
    requires potentials { ArePotentials potentials.now }
    requires costs { NoneIsBelow (walkable Residual net.now) (time_at potentials.now) }
    requires from { from < NODES }
    requires to { to < NODES }
    requires apart { from ≢ to }
    ensures { IsReach (arcs_of (walkable Residual net.now) (time_at potentials.now))
        from to result }
{
    let last = measure(
        net,
        potentials,
        from,
        scratch.mark,
        &mut scratch.labels,
        &mut scratch.order,
        &mut scratch.distances,
    );
    let mark = next_mark(last, &mut scratch.labels);
    scratch.mark = mark;
    let quest = Quest {
        net,
        ways: Ways::Residual,
        potentials,
        task: Task {
            root: to,
            goal: from,
            cap: NO_CAP,
        },
        mark,
        outward: false,
    };
    let (_done, front) = spread(&quest, &mut scratch.labels, &mut scratch.order);
    let Some(closing) = front.closing else {
        return Reach {
            distances: &scratch.distances,
            path: None,
        };
    };
    let (steps, least) = trace(
        &quest,
        &scratch.labels,
        closing,
        &mut scratch.places,
        &mut scratch.backward,
    );
    Reach {
        distances: &scratch.distances,
        path: Some(Path {
            places: &scratch.places[..steps],
            backward: &scratch.backward[..steps],
            least,
        }),
    }
}

/// Writes the distance of each node from one, along residual edges, and gives the mark of the search for them.
fn measure(
    net: &Net,
    potentials: &[i64],
    from: u32,
    last: u32,
    labels: &mut [Label],
    order: &mut [u32],
    distances: &mut [Option<i64>],
) -> u32
    requires net { IsNet net.now }
    requires potentials { ArePotentials potentials.now }
    requires costs { NoneIsBelow (walkable Residual net.now) (time_at potentials.now) }
    requires from { from < NODES }
    requires marked { AreMarkedTo last labels.old }
    requires labels { length labels.old ≡ NODES }
    requires order { length order.old ≡ NODES }
    requires distances { length distances.old ≡ NODES }
    ensures distances { AreDistancesFrom
        (arcs_of (walkable Residual net.now) (time_at potentials.now)) from distances.new }
    ensures marked { AreMarkedTo result labels.new }
{
    let mark = next_mark(last, labels);
    let quest = Quest {
        net,
        ways: Ways::Residual,
        potentials,
        task: Task {
            root: from,
            goal: NODES as u32,
            cap: NO_CAP,
        },
        mark,
        outward: true,
    };
    let (_done, _front) = spread(&quest, labels, order);
    tell_distances(mark, labels, distances);
    mark
}

/// Writes what each label tells.
fn tell_distances(mark: u32, labels: &[Label], distances: &mut [Option<i64>])
    requires labels { length labels.now ≡ NODES }
    requires distances { length distances.old ≡ NODES }
    requires small { (node : ℕ) → (label_at labels.now node).mark ≡ mark →
        (label_at labels.now node).distance ≤ NO_CAP }
    ensures { (node : ℕ) → node < NODES →
        slice_index_or distances.new node None ≡ told_distance mark (label_at labels.now node) }
{
    for node in 0..NODES {
        distances[node] = told_by(mark, labels[node]);
    }
}

/// What a label tells of the distance of its node.
fn told_by(mark: u32, label: Label) -> Option<i64>
    requires { label.mark ≡ mark → label.distance ≤ NO_CAP }
    ensures { result ≡ told_distance mark label }
{
    if label.mark == mark {
        Some(label.distance as i64)
    } else {
        None
    }
}
