//! The earliest schedule, by the distance graph of temporal constraint networks (Dechter, Meiri and Pearl 1991) and
//! the method of Bellman and Ford. The least times from 0 on that meet the loosened edges are the opposites of the
//! greatest times up to 0 that meet the same edges turned around, which is what `settle` finds.
ghost use Rattle.std.specs.Prelude.{◌≡◌, IfOk, reverse};
ghost use Rattle.uhura_relax.specs.Schedule.{LeavesSome, GivesEarliest};

use crate::loosened::fill_turned;
use crate::{RelaxRefusal, RelaxScratch, Schedule};
use std::alloc::{AllocError, Global};
use uhura_choice::Branch;
use uhura_cycle::{Verdict, settle};
use uhura_net::Place;
use uhura_plan::Plan;
use uhura_worst::Loosening;

/// The schedule in which each controllable event comes as early as it can, from 0 on, with the requirements of the
/// branch met for all lengths that are left to the durations, each side loosened or narrowed by its units. Times are
/// in the plan's units, one for each controllable event. `Broken` gives the places of a closed walk of loosened edges
/// whose bounds sum below 0, and no times at all meet the requirements then. `Memory` says nothing. Memory is taken
/// at the start and for the answer; the work is at most nodes times edges. The method is that of R. Dechter, I. Meiri
/// and J. Pearl, Temporal constraint networks (1991), with the shortest paths of R. Bellman (1958) and L. R. Ford
/// (1956).
pub fn earliest(
    alloc: Global,
    plan: &Plan,
    branch: &Branch,
    loosening: &Loosening,
) -> Result<Schedule, RelaxRefusal>
    requires { LeavesSome plan.now branch.now loosening.now }
    ensures { GivesEarliest plan.now branch.now loosening.now result }
{
    let mut scratch = RelaxScratch::new(alloc)?;
    earliest_in(alloc, plan, branch, loosening, &mut scratch)
}

/// The same as `earliest`, in room that is kept from one call to the next. Only the answer takes memory.
pub fn earliest_in(
    alloc: Global,
    plan: &Plan,
    branch: &Branch,
    loosening: &Loosening,
    scratch: &mut RelaxScratch,
) -> Result<Schedule, RelaxRefusal>
    requires { LeavesSome plan.now branch.now loosening.now }
    ensures { GivesEarliest plan.now branch.now loosening.now result }
{
    fill_turned(&mut scratch.table, plan, branch, loosening);
    let events = plan.events();
    match settle(&scratch.table, &scratch.chosen, &mut scratch.solver) {
        Verdict::Potentials(times) => {
            let schedule = Schedule::opposite(alloc, times, events)?;
            Ok(schedule)
        }
        Verdict::Negative(places) => {
            let cycle = backward(alloc, places)?;
            Err(RelaxRefusal::Broken { cycle })
        }
    }
}

/// The places of a walk, the last one first.
fn backward(alloc: Global, places: &[Place]) -> Result<Vec<Place>, AllocError>
    ensures { IfOk result (λ cycle. cycle.items ≡ reverse places.now) }
{
    places.iter().rev().copied().collect(alloc)
}
