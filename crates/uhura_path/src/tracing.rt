//! Following the steps from the goal to the root.
ghost use Rattle.std.specs.Prelude.{ℕ, ◌≡◌, ◌≤◌, List, Some, length, take};
ghost use Rattle.uhura_net.specs.declared.edge.TheConstants.{NODES};
ghost use Rattle.uhura_path.specs.declared.front.Front.{Front};
ghost use Rattle.uhura_path.specs.Walk.{IsPath, IsLeastRoom};
ghost use Rattle.uhura_path.specs.Quest.{IsQuest, aim_of};
ghost use Rattle.uhura_path.specs.Search.{IsClosed};

use crate::quest::Quest;
use crate::{Label, Step};
use uhura_net::{NODES, Place};

/// Writes the path that begins with a step of the goal, and gives how many steps it has, and its least room.
pub(crate) fn trace(
    quest: &Quest,
    labels: &[Label],
    closing: Step,
    places: &mut [Place],
    backward: &mut [bool],
) -> (usize, u64)
    requires quest { IsQuest quest.now }
    requires places { length places.old ≡ NODES }
    requires backward { length backward.old ≡ NODES }
    requires over { (taken : ℕ) × (order : List ℕ) × (front : Front) × IsClosed
        (aim_of quest.now) taken labels.now order front closing }
    ensures steps { result.0 ≤ NODES }
    ensures path { (taken : ℕ) (order : List ℕ) (front : Front) →
        IsClosed (aim_of quest.now) taken labels.now order front closing →
        IsPath (aim_of quest.now).arcs quest.now.task.goal (take result.0 places.new)
        (take result.0 backward.new) quest.now.task.root front.cap }
    ensures least { IsLeastRoom (aim_of quest.now).arcs
        (take result.0 places.new) (take result.0 backward.new) result.1 }
{
    let mut step = closing;
    let mut least = u64::MAX;
    for count in 0..NODES {
        places[count] = step.place;
        backward[count] = step.backward;
        let Some(arc) = quest.arc(step.place, step.backward) else {
            // Not reached: each step goes along an arc.
            return (0, 0);
        };
        least = least.min(arc.room);
        if arc.to == quest.task.root {
            return (count + 1, least);
        }
        step = labels[arc.to as usize].step;
    }
    // Not reached: each step leads to a node that was done before.
    (0, 0)
}
