//! Passes over the steps, until one lowers no time or the steps lead back to where they begin.
ghost use Rattle.std.specs.Prelude.{◌≡◌, ◌<◌, ◌≤◌, length, IfSome};
ghost use Rattle.std.specs.List.Sorted.{IsPermutation};
ghost use Rattle.uhura_net.specs.Edges.{Edges};
ghost use Rattle.uhura_cycle.specs.Steps.{AreStepsOf, AreSoundSteps, IsLeastBound};
ghost use Rattle.uhura_cycle.specs.Verdict.{IsFound};

use crate::following::make_pass;
use crate::lining::line_up;
use crate::step::Step;
use crate::tracing::trace;
use uhura_net::{NODES, Place};

/// The passes before the steps are lined up. Mostly they are enough, and together they cost less than lining up.
const EARLY_PASSES: usize = 8;

/// Lowers the times from 0 on until they keep the steps, or gives the part of `walk` that is closed and sums below 0.
/// No bound is below `least`. Passes go forward and backward by turns.
pub(crate) fn descend(
    steps: &mut [Step],
    least: i64,
    times: &mut [i64],
    backs: &mut [Option<Step>],
    visits: &mut [Option<usize>],
    walk: &mut [Place],
) -> Option<(usize, usize)>
    requires steps { (edges : Edges) × AreStepsOf edges steps.old }
    requires sound { AreSoundSteps steps.old }
    requires least { IsLeastBound steps.old least }
    requires times { length times.old ≡ NODES }
    requires backs { length backs.old ≡ NODES }
    requires visits { length visits.old ≡ NODES }
    requires walk { length walk.old ≡ NODES }
    ensures part { IfSome result (λ part. (part.0 < part.1) × (part.1 ≤ NODES)) }
    ensures found { (edges : Edges) → AreStepsOf edges steps.old →
        IsFound edges times.new walk.new result }
{
    times.fill(0);
    backs.fill(None);
    let lowest = NODES as i64 * least;
    for number in 0..NODES {
        line_up_late(steps, number);
        let backward = number % 2 == 1;
        let Some(node) = make_pass(steps, backward, lowest, times, backs) else {
            return None;
        };
        if let Some(part) = trace(backs, node, visits, walk) {
            return Some(part);
        }
    }
    // Not reached: after as many passes as there are nodes, the steps lead back to where they begin.
    None
}

/// Lines the steps up before the pass with this number, where that is the first late one.
fn line_up_late(steps: &mut [Step], number: usize)
    ensures { IsPermutation steps.old steps.new }
{
    if number == EARLY_PASSES {
        line_up(steps);
    }
}
