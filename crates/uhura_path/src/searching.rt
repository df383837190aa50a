//! The capped search.
ghost use Rattle.std.specs.Prelude.{ℕ, ◌<◌, ◌≤◌};
ghost use Rattle.uhura_net.specs.Edges.{time_at};
ghost use Rattle.uhura_path.specs.Ways.{walkable, NoneIsBelow, ArePotentials, arcs_of};
ghost use Rattle.uhura_path.specs.Found.{label_at, IsTask, IsFound};
ghost use Rattle.uhura_path.specs.Scratch.{AreMarkedTo};

use crate::quest::Quest;
use crate::spreading::spread;
use crate::tracing::trace;
use crate::{Found, Label, Path, PathScratch, Task, Ways};
use uhura_net::Net;

/// The least cost of a path from the goal to the root, in residual edges or in firm edges alone, where it is below
/// the cap, with such a path; else the cap. The cost of an edge is its reduced cost under the potentials, its slack.
/// It takes no memory, and works at the nodes that are nearer to the root than that and at the edges there.
pub fn search<'a>(
    net: &Net,
    ways: Ways,
    potentials: &[i64],
    task: Task,
    scratch: &'a mut PathScratch,
) -> Found<'a>
    requires potentials { ArePotentials potentials.now }
    requires costs { NoneIsBelow (walkable ways net.now) (time_at potentials.now) }
    requires task { IsTask task }
    ensures { IsFound (arcs_of (walkable ways net.now) (time_at potentials.now)) task result }
{
    let mark = next_mark(scratch.mark, &mut scratch.labels);
    scratch.mark = mark;
    let quest = Quest {
        net,
        ways,
        potentials,
        task,
        mark,
        outward: false,
    };
    let (taken, front) = spread(&quest, &mut scratch.labels, &mut scratch.order);
    let Some(closing) = front.closing else {
        return Found {
            cost: front.cap,
            path: None,
            reached: &scratch.order[..taken],
            labels: &scratch.labels,
        };
    };
    let (steps, least) = trace(
        &quest,
        &scratch.labels,
        closing,
        &mut scratch.places,
        &mut scratch.backward,
    );
    Found {
        cost: front.cap,
        path: Some(Path {
            places: &scratch.places[..steps],
            backward: &scratch.backward[..steps],
            least,
        }),
        reached: &scratch.order[..taken],
        labels: &scratch.labels,
    }
}

/// A mark that no label bears, behind the last one. Where that one was at its type's end, all labels are cleared.
pub(crate) fn next_mark(last: u32, labels: &mut [Label]) -> u32
    requires { AreMarkedTo last labels.old }
    ensures later { 1 ≤ result }
    ensures fresh { (node : ℕ) → (label_at labels.new node).mark < result }
{
    if last == u32::MAX {
        labels.fill(Label::NONE);
        return 1;
    }
    last + 1
}
