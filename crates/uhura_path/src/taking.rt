//! Taking the open node that is nearest to the root.
ghost use Rattle.std.specs.Prelude.{ℕ, ◌≡◌, ◌<◌, ◌≤◌, length, slice_index_or};
ghost use Rattle.uhura_net.specs.declared.edge.TheConstants.{NODES};
ghost use Rattle.uhura_path.specs.Found.{label_at};
ghost use Rattle.uhura_path.specs.Search.{IsChosen};

use crate::Label;

/// Brings the nearest of the open nodes to the front of them, behind the done ones, and gives it.
pub(crate) fn take_least(labels: &[Label], order: &mut [u32], taken: usize, count: usize) -> u32
    requires some { taken < count }
    requires labels { length labels.now ≡ NODES }
    requires order { count ≤ length order.old }
    requires nodes { (at : ℕ) → at < count → slice_index_or order.old at 0 < NODES }
    ensures { IsChosen taken count labels.now order.old order.new result }
{
    let best = least_open(labels, order, taken, count);
    let node = order[best];
    order[best] = order[taken];
    order[taken] = node;
    node
}

/// Where the nearest of the open nodes stands.
fn least_open(labels: &[Label], order: &[u32], taken: usize, count: usize) -> usize
    requires some { taken < count }
    requires labels { length labels.now ≡ NODES }
    requires order { count ≤ length order.now }
    requires nodes { (at : ℕ) → at < count → slice_index_or order.now at 0 < NODES }
    ensures from { taken ≤ result }
    ensures within { result < count }
    ensures least { (at : ℕ) → taken ≤ at → at < count →
        (label_at labels.now (slice_index_or order.now result 0)).distance ≤
        (label_at labels.now (slice_index_or order.now at 0)).distance }
{
    let mut best = taken;
    for at in taken + 1..count {
        let nearest = labels[order[best] as usize].distance;
        if labels[order[at] as usize].distance < nearest {
            best = at;
        }
    }
    best
}
