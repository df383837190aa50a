//! The order in which the steps are followed.
ghost use Rattle.std.specs.List.Sorted.{IsPermutation};

use crate::step::Step;

/// Puts the steps in the order of the lower of their two nodes, and then of the higher. A pass forward then takes
/// each way along rising nodes whole, and a pass backward each way along falling ones.
pub(crate) fn line_up(steps: &mut [Step])
    ensures { IsPermutation steps.old steps.new }
{
    steps.sort_unstable_by_key(|step| nodes_in_order(step));
}

/// The two nodes of a step, the lower one first.
fn nodes_in_order(step: &Step) -> (u32, u32) {
    let (from, to) = (step.edge.from, step.edge.to);
    (from.min(to), from.max(to))
}
