//! The flow at the answered branch.
ghost use Rattle.std.specs.Prelude.{◌≡◌, [], IfOk};
ghost use Rattle.uhura_flow.specs.Flow.{IsFlow};
ghost use Rattle.uhura_dual.specs.ReadOff.{ArePotentials};
ghost use Rattle.uhura_search.specs.Asked.{HasLearned};
ghost use Rattle.uhura_search.specs.Learning.{IsLearningFor, IsReady, StandsAt, IsReachedAt};
ghost use Rattle.uhura_search.specs.Moving.{AreListed};

use crate::incumbent::Incumbent;
use crate::learning::Learning;
use crate::moving::{Moved, move_to};
use std::alloc::{AllocError, Global};
use uhura_plan::Plan;
use uhura_veto::Vetoes;

/// Moves the flow to the branch of the best, reads it, and answers its potentials.
pub(crate) fn solve(
    learning: &mut Learning,
    alloc: Global,
    plan: &Plan,
    vetoes: &Vetoes,
    best: &Incumbent,
) -> Result<Vec<i64>, AllocError>
    requires ready { IsReady (record { plan = plan.now; vetoes = vetoes.now }) learning.old }
    requires reached { IsReachedAt (record { plan = plan.now; vetoes = vetoes.now }) best.now }
    ensures potentials { IfOk result (λ potentials.
        potentials.items ≡ learning.new.flow.potentials) }
    ensures within { ArePotentials learning.new.flow.potentials }
    ensures flow { IsFlow learning.new.flow }
    ensures stands { StandsAt plan.now learning.new best.now.branch }
    ensures store { learning.new.store ≡ learning.old.store }
    ensures read { HasLearned plan.now.choices learning.old learning.new [] 1 }
    ensures kept { IsLearningFor (record { plan = plan.now; vetoes = vetoes.now }) learning.new }
    ensures listed { AreListed learning.new.places learning.new.table }
{
    let places = learning.places.as_slice();
    match move_to(
        &mut learning.flow,
        &learning.table,
        places,
        plan,
        &best.branch,
    ) {
        Moved::Stuck => unreachable!(),
        Moved::Holds => {}
    }
    learning.flow.reading();
    learning.flow.potentials().to_vec(alloc)
}
