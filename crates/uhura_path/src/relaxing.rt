//! Following an arc back from a node that is done.
ghost use Rattle.std.specs.Prelude.{ℕ, ◌≡◌, ◌<◌, ◌≤◌, Some};
ghost use Rattle.uhura_net.specs.declared.place.TheConstants.{PLACES};
ghost use Rattle.uhura_path.specs.declared.ways.Arc.{Arc};
ghost use Rattle.uhura_path.specs.declared.task.TheConstants.{NO_CAP};
ghost use Rattle.uhura_path.specs.Quest.{IsQuest, aim_of};
ghost use Rattle.uhura_path.specs.Search.{IsAtNode, GoesOn, IsKept};

use crate::front::Front;
use crate::labelling::note_label;
use crate::quest::Quest;
use crate::{Label, Step};
use uhura_net::Place;

/// Follows the arc at a place, if there is one, back from the node that was done last, which is so far from the root.
/// Where that is nearer than the cap, the arc's start gets a label, or a path from the goal is found.
pub(crate) fn relax(
    quest: &Quest,
    step: Step,
    node: u32,
    distance: u64,
    labels: &mut [Label],
    order: &mut [u32],
    front: &mut Front,
)
    requires quest { IsQuest quest.now }
    requires place { step.place.0 < PLACES }
    requires ends { (arc : Arc) → (aim_of quest.now).arcs step.place.0 step.backward ≡ Some arc →
        arc.to ≡ node }
    requires at { (taken : ℕ) × IsAtNode (aim_of quest.now) taken node distance
        (record { labels = labels.old; order = order.old; front = front.old }) }
    ensures on { (taken : ℕ) → IsAtNode (aim_of quest.now) taken node distance
        (record { labels = labels.old; order = order.old; front = front.old }) →
        GoesOn (aim_of quest.now) taken node distance
        (record { labels = labels.old; order = order.old; front = front.old })
        (record { labels = labels.new; order = order.new; front = front.new }) }
    ensures kept { (arc : Arc) → (aim_of quest.now).arcs step.place.0 step.backward ≡ Some arc →
        IsKept (aim_of quest.now)
        (record { labels = labels.new; order = order.new; front = front.new }) arc }
{
    if let Some(arc) = quest.arc(step.place, step.backward) {
        let cost = distance + arc.cost;
        if cost >= front.cap {
            return;
        }
        if arc.from == quest.task.goal {
            front.cap = cost;
            front.closing = Some(step);
            return;
        }
        let label = Label {
            mark: quest.mark,
            distance: cost,
            step,
        };
        note_label(arc.from, label, labels, order, front);
    }
}
