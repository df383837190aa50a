//! Following an edge, and each edge once.
ghost use Rattle.std.specs.Prelude.{◌≡◌, ◌<◌, ℕ, ◌^◌, ◌≤ℤ◌, ℤ, pos, negsuc, Some, length, slice_index_or};
ghost use Rattle.std.specs.List.{All};
ghost use Rattle.uhura_net.specs.Table.{IsEdgeFor};
ghost use Rattle.uhura_net.specs.Edges.{Edges, time_at};
ghost use Rattle.uhura_cycle.specs.Steps.{AreThere, AreSoundSteps, HasTimesFrom, IsFollowed, in_order};
ghost use Rattle.uhura_cycle.specs.declared.step.Step.{Step};
ghost use Rattle.uhura_cycle.specs.Descent.{MakesPass};

use crate::step::Step;
use uhura_net::NODES;

/// Follows each step once, the last one first where the pass goes backward, until a time falls below `lowest`, and
/// gives the node that was lowered last.
pub(crate) fn make_pass(
    steps: &[Step],
    backward: bool,
    lowest: i64,
    times: &mut [i64],
    backs: &mut [Option<Step>],
) -> Option<u32>
    requires steps { AreSoundSteps steps.now }
    requires lowest { negsuc (2 ^ 61) ≤ℤ lowest }
    requires times { length times.old ≡ NODES }
    requires backs { length backs.old ≡ NODES }
    requires above { HasTimesFrom lowest times.old }
    requires most { (node : ℕ) → time_at times.old node ≤ℤ pos 0 }
    ensures times { length times.new ≡ NODES }
    ensures backs { length backs.new ≡ NODES }
    ensures pass { (edges : Edges) → AreThere edges steps.now →
        MakesPass (record { edges = edges; steps = steps.now; lowest = lowest })
        (record { times = times.old; backs = backs.old })
        (record { times = times.new; backs = backs.new }) result }
{
    let mut last = None;
    for taken in 0..steps.len() {
        let step = step_after(steps, backward, taken);
        if follow(step, times, backs) {
            last = Some(step.edge.to);
            if times[step.edge.to as usize] < lowest {
                return last;
            }
        }
    }
    last
}

/// The step that comes after the first `taken` ones.
fn step_after(steps: &[Step], backward: bool, taken: usize) -> Step
    requires taken { taken < length steps.now }
    requires steps { AreSoundSteps steps.now }
    ensures step { (other : Step) →
        result ≡ slice_index_or (in_order backward steps.now) taken other }
    ensures sound { IsEdgeFor result.place.0 result.edge }
{
    if backward {
        steps[steps.len() - 1 - taken]
    } else {
        steps[taken]
    }
}

/// Lowers the time of the edge's end to what the edge allows, where it is above that, and says whether it was.
fn follow(step: Step, times: &mut [i64], backs: &mut [Option<Step>]) -> bool
    requires step { IsEdgeFor step.place.0 step.edge }
    requires times { length times.old ≡ NODES }
    requires backs { length backs.old ≡ NODES }
    requires low { negsuc (2 ^ 61) ≤ℤ time_at times.old step.edge.from }
    requires high { time_at times.old step.edge.from ≤ℤ pos 0 }
    ensures { IsFollowed step (record { times = times.old; backs = backs.old })
        (record { times = times.new; backs = backs.new }) result }
{
    let allowed = times[step.edge.from as usize] + step.edge.bound;
    if allowed < times[step.edge.to as usize] {
        times[step.edge.to as usize] = allowed;
        backs[step.edge.to as usize] = Some(step);
        true
    } else {
        false
    }
}
