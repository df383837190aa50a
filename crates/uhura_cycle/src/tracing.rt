//! Going back from a node by the steps that lowered the nodes last.
ghost use Rattle.std.specs.Prelude.{◌≡◌, ◌<◌, length};
ghost use Rattle.uhura_cycle.specs.Steps.{AreSoundBacks};
ghost use Rattle.uhura_cycle.specs.Trail.{IsTrace};

use crate::step::Step;
use uhura_net::{NODES, Place};

/// Goes back from `start` until it comes by a node again, or to one that no step lowered. The places stand in `walk`
/// from its end on backward, so that they are in the order of the walk; the part that is given is the closed one.
pub(crate) fn trace(
    backs: &[Option<Step>],
    start: u32,
    visits: &mut [Option<usize>],
    walk: &mut [Place],
) -> Option<(usize, usize)>
    requires start { start < NODES }
    requires backs { length backs.now ≡ NODES }
    requires sound { AreSoundBacks backs.now }
    requires visits { length visits.old ≡ NODES }
    requires walk { length walk.old ≡ NODES }
    ensures { IsTrace backs.now start walk.new result }
{
    visits.fill(None);
    let mut node = start;
    for taken in 0..NODES {
        let at = NODES - taken;
        if let Some(end) = visits[node as usize] {
            return Some((at, end));
        }
        visits[node as usize] = Some(at);
        let Some(step) = backs[node as usize] else {
            return None;
        };
        walk[at - 1] = step.place;
        node = step.edge.from;
    }
    let end = visits[node as usize]?;
    Some((0, end))
}
