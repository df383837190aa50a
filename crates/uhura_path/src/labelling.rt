//! Noting at a node how near it is.
ghost use Rattle.std.specs.Prelude.{◌≡◌, ◌≢◌, ◌<◌, length};
ghost use Rattle.uhura_net.specs.declared.edge.TheConstants.{NODES};
ghost use Rattle.uhura_path.specs.Found.{label_at};
ghost use Rattle.uhura_path.specs.Search.{IsNoted};

use crate::Label;
use crate::front::Front;

/// Notes a label at a node that has none of its search, or one that is farther from the root.
pub(crate) fn note_label(
    node: u32,
    label: Label,
    labels: &mut [Label],
    order: &mut [u32],
    front: &mut Front,
)
    requires node { node < NODES }
    requires labels { length labels.old ≡ NODES }
    requires order { length order.old ≡ NODES }
    requires room { (label_at labels.old node).mark ≢ label.mark → front.old.count < NODES }
    ensures { IsNoted node label
        (record { labels = labels.old; order = order.old; front = front.old })
        (record { labels = labels.new; order = order.new; front = front.new }) }
{
    let old = labels[node as usize];
    if old.mark != label.mark {
        order[front.count] = node;
        front.count += 1;
    } else if old.distance <= label.distance {
        return;
    }
    labels[node as usize] = label;
}
