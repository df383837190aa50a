//! Following all arcs back from a node that is done.
ghost use Rattle.std.specs.Prelude.{ℕ, ◌≡◌, ◌<◌, Bool, Some};
ghost use Rattle.uhura_net.specs.declared.edge.TheConstants.{NODES};
ghost use Rattle.uhura_net.specs.Lists.{node_of, IsListing};
ghost use Rattle.uhura_path.specs.declared.ways.Arc.{Arc};
ghost use Rattle.uhura_path.specs.Quest.{IsQuest, aim_of};
ghost use Rattle.uhura_path.specs.Search.{IsAtNode, GoesOn, IsKept};

use crate::front::Front;
use crate::quest::Quest;
use crate::relaxing::relax;
use crate::{Label, Step};
use uhura_net::{Lists, PLACES};

/// Follows the arcs at the places of a list, each forward or each backward, back from the node that was done last.
fn follow_list(
    quest: &Quest,
    lists: &Lists,
    backward: bool,
    node: u32,
    distance: u64,
    labels: &mut [Label],
    order: &mut [u32],
    front: &mut Front,
)
    requires quest { IsQuest quest.now }
    requires node { node < NODES }
    requires lists { IsListing lists.now }
    requires ends { (place : ℕ) (arc : Arc) → (aim_of quest.now).arcs place backward ≡ Some arc →
        arc.to ≡ node_of lists.now place }
    requires at { (taken : ℕ) × IsAtNode (aim_of quest.now) taken node distance
        (record { labels = labels.old; order = order.old; front = front.old }) }
    ensures on { (taken : ℕ) → IsAtNode (aim_of quest.now) taken node distance
        (record { labels = labels.old; order = order.old; front = front.old }) →
        GoesOn (aim_of quest.now) taken node distance
        (record { labels = labels.old; order = order.old; front = front.old })
        (record { labels = labels.new; order = order.new; front = front.new }) }
    ensures kept { (place : ℕ) (arc : Arc) → (aim_of quest.now).arcs place backward ≡ Some arc →
        arc.to ≡ node → IsKept (aim_of quest.now)
        (record { labels = labels.new; order = order.new; front = front.new }) arc }
{
    let mut at = lists.first(node);
    for _count in 0..PLACES {
        let Some(place) = at else {
            return;
        };
        relax(
            quest,
            Step { place, backward },
            node,
            distance,
            labels,
            order,
            front,
        );
        at = lists.next(place);
    }
}

/// Follows all arcs back from the node that was done last, which is so far from the root.
pub(crate) fn follow_back(
    quest: &Quest,
    node: u32,
    distance: u64,
    labels: &mut [Label],
    order: &mut [u32],
    front: &mut Front,
)
    requires quest { IsQuest quest.now }
    requires node { node < NODES }
    requires at { (taken : ℕ) × IsAtNode (aim_of quest.now) taken node distance
        (record { labels = labels.old; order = order.old; front = front.old }) }
    ensures on { (taken : ℕ) → IsAtNode (aim_of quest.now) taken node distance
        (record { labels = labels.old; order = order.old; front = front.old }) →
        GoesOn (aim_of quest.now) taken node distance
        (record { labels = labels.old; order = order.old; front = front.old })
        (record { labels = labels.new; order = order.new; front = front.new }) }
    ensures kept { (place : ℕ) (backward : Bool) (arc : Arc) →
        (aim_of quest.now).arcs place backward ≡ Some arc →
        arc.to ≡ node → IsKept (aim_of quest.now)
        (record { labels = labels.new; order = order.new; front = front.new }) arc }
{
    let forward = quest.lists(false);
    follow_list(quest, forward, false, node, distance, labels, order, front);
    let back = quest.lists(true);
    follow_list(quest, back, true, node, distance, labels, order, front);
}
