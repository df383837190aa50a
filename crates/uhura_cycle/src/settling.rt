//! The solver.
ghost use Rattle.std.specs.Prelude.{◌≡◌, length};
ghost use Rattle.uhura_net.specs.Edges.{chosen_edges};
ghost use Rattle.uhura_cycle.specs.Verdict.{IsVerdict};

use crate::descending::descend;
use crate::gathering::{gather, least_bound};
use crate::{Scratch, Verdict};
use uhura_net::{EdgeTable, PLACES};

/// The verdict on the edges of the table at the chosen places. It takes no memory. The work is at most nodes times
/// chosen edges, and much less where few passes settle the times or a closed walk is found early. Passes go through
/// the edges in one order and in the opposite order by turns, after J. Y. Yen, An algorithm for finding shortest
/// routes from all source nodes to a given destination in general networks (1970): first in the order of places,
/// later in that of nodes.
pub fn settle<'a>(table: &EdgeTable, chosen: &[bool], scratch: &'a mut Scratch) -> Verdict<'a>
    requires { length chosen.now ≡ PLACES }
    ensures { IsVerdict (chosen_edges table.now chosen.now) result }
{
    gather(table, chosen, &mut scratch.steps);
    let least = least_bound(&scratch.steps);
    let found = descend(
        &mut scratch.steps,
        least,
        &mut scratch.times,
        &mut scratch.backs,
        &mut scratch.visits,
        &mut scratch.walk,
    );
    match found {
        None => Verdict::Potentials(&scratch.times),
        Some((from, to)) => Verdict::Negative(&scratch.walk[from..to]),
    }
}
