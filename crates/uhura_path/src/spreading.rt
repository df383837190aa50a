//! Spreading from the root against the arcs.
ghost use Rattle.std.specs.Prelude.{ℕ, ◌≡◌, ◌<◌, length};
ghost use Rattle.uhura_net.specs.declared.edge.TheConstants.{NODES};
ghost use Rattle.uhura_path.specs.Found.{label_at};
ghost use Rattle.uhura_path.specs.Quest.{IsQuest, aim_of};
ghost use Rattle.uhura_path.specs.Search.{IsSpread, IsOver};

use crate::Label;
use crate::following::follow_back;
use crate::front::Front;
use crate::quest::Quest;
use crate::taking::take_least;
use uhura_net::NODES;

/// Takes the nearest open node again and again, and follows the arcs back from it, until none is nearer than the cap.
/// It gives how many nodes are done.
pub(crate) fn spread(quest: &Quest, labels: &mut [Label], order: &mut [u32]) -> (usize, Front)
    requires quest { IsQuest quest.now }
    requires labels { length labels.old ≡ NODES }
    requires order { length order.old ≡ NODES }
    requires fresh { (node : ℕ) → (label_at labels.old node).mark < quest.now.mark }
    ensures { IsOver (aim_of quest.now) result.0
        (record { labels = labels.new; order = order.new; front = result.1 }) }
{
    let mut front = begin(quest, labels, order);
    for taken in 0..NODES {
        if taken == front.count {
            return (taken, front);
        }
        let node = take_least(labels, order, taken, front.count);
        let distance = labels[node as usize].distance;
        if distance >= front.cap {
            return (taken, front);
        }
        follow_back(quest, node, distance, labels, order, &mut front);
    }
    (NODES, front)
}

/// Gives the root its label: it is open, and nothing else is known.
fn begin(quest: &Quest, labels: &mut [Label], order: &mut [u32]) -> Front
    requires quest { IsQuest quest.now }
    requires labels { length labels.old ≡ NODES }
    requires order { length order.old ≡ NODES }
    requires fresh { (node : ℕ) → (label_at labels.old node).mark < quest.now.mark }
    ensures { IsSpread (aim_of quest.now) 0 0
        (record { labels = labels.new; order = order.new; front = result }) }
{
    let root = quest.task.root;
    labels[root as usize] = Label {
        mark: quest.mark,
        ..Label::NONE
    };
    order[0] = root;
    Front {
        count: 1,
        cap: quest.task.cap,
        closing: None,
    }
}
