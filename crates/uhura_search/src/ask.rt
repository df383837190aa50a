//! A question.
ghost use Rattle.std.specs.Prelude.{◌≡◌, Some, IfOk};
ghost use Rattle.uhura_veto.specs.State.{State};
ghost use Rattle.uhura_shows.specs.Shows.{Shows};
ghost use Rattle.uhura_search.specs.Answer.{IsAnswerTo, shown_leaves};
ghost use Rattle.uhura_search.specs.Known.{answer_of};
ghost use Rattle.uhura_search.specs.Asked.{LearnsOrStops, AreEntered, LeavesEntered, IsLeftSolved};
ghost use Rattle.uhura_search.specs.Learning.{IsLearningFor, AreCounts, IsReady, IsReachedAt};
ghost use Rattle.uhura_search.specs.Moving.{AreListed};

use crate::closing::close_all;
use crate::cover::leaves_of;
use crate::incumbent::Incumbent;
use crate::learning::Learning;
use crate::solving::solve;
use crate::trying::copy_of;
use crate::{LeafNote, Outcome};
use std::alloc::{AllocError, Global};
use uhura_choice::Prefix;
use uhura_plan::Plan;
use uhura_veto::Vetoes;

/// The first of the cheapest branches, or none, with leaves that show it. What is learned on the way is kept. The
/// flow is read or found stuck once for each conflict that is added, and once more where there is an answer, or no
/// memory for what was to be learned.
pub(crate) fn ask(
    learning: &mut Learning,
    alloc: Global,
    plan: &Plan,
    vetoes: &Vetoes,
) -> Result<Outcome, AllocError>
    requires known { IsLearningFor (record { plan = plan.now; vetoes = vetoes.now }) learning.old }
    requires listed { AreListed learning.old.places learning.old.table }
    ensures answer { let state : State = record { plan = plan.now; vetoes = vetoes.now } in
        IfOk result (IsAnswerTo state) }
    ensures solved { let state : State = record { plan = plan.now; vetoes = vetoes.now } in
        IfOk result (IsLeftSolved learning.new.flow.net state) }
    ensures asked { LearnsOrStops plan.now.choices learning.old learning.new }
    ensures entered { IfOk result (LeavesEntered learning.new.store) }
    ensures kept { IsLearningFor (record { plan = plan.now; vetoes = vetoes.now }) learning.new }
    ensures listed { AreListed learning.new.places learning.new.table }
{
    make_ready(learning, plan, vetoes);
    let best = close_all(learning, alloc, plan, vetoes)?;
    let leaves = leaves_of(alloc, plan, vetoes, &learning.store, &best)?;
    match best {
        None => Ok(Outcome::None { leaves }),
        Some(best) => found(learning, alloc, plan, vetoes, best, leaves),
    }
}

/// Begins a question: the flow stands nowhere on the way to a branch.
fn make_ready(learning: &mut Learning, plan: &Plan, vetoes: &Vetoes)
    requires known { IsLearningFor (record { plan = plan.now; vetoes = vetoes.now }) learning.old }
    requires listed { AreListed learning.old.places learning.old.table }
    ensures counts { AreCounts learning.old }
    ensures flow { learning.new.flow ≡ learning.old.flow }
    ensures table { learning.new.table ≡ learning.old.table }
    ensures store { learning.new.store ≡ learning.old.store }
    ensures added { learning.new.added ≡ learning.old.added }
    ensures ready { IsReady (record { plan = plan.now; vetoes = vetoes.now }) learning.new }
{
    // By their types the plan and the vetoes are sound, and the counts within them.
    let _ = (plan.choices(), vetoes.count(), learning.flow.settles());
    let _added = learning.added;
    learning.stands = Prefix::empty();
}

/// The answer where there is a best, at whose branch the flow is left.
fn found(
    learning: &mut Learning,
    alloc: Global,
    plan: &Plan,
    vetoes: &Vetoes,
    best: Incumbent,
    leaves: Vec<LeafNote>,
) -> Result<Outcome, AllocError>
    requires ready { IsReady (record { plan = plan.now; vetoes = vetoes.now }) learning.old }
    requires reached { IsReachedAt (record { plan = plan.now; vetoes = vetoes.now }) best }
    requires shows { let state : State = record { plan = plan.now; vetoes = vetoes.now } in
        Shows state (answer_of (Some best)) (shown_leaves state leaves.items) }
    requires entered { AreEntered learning.old.store leaves.items }
    ensures answer { let state : State = record { plan = plan.now; vetoes = vetoes.now } in
        IfOk result (IsAnswerTo state) }
    ensures solved { let state : State = record { plan = plan.now; vetoes = vetoes.now } in
        IfOk result (IsLeftSolved learning.new.flow.net state) }
    ensures asked { LearnsOrStops plan.now.choices learning.old learning.new }
    ensures entered { IfOk result (LeavesEntered learning.new.store) }
    ensures kept { IsLearningFor (record { plan = plan.now; vetoes = vetoes.now }) learning.new }
    ensures listed { AreListed learning.new.places learning.new.table }
{
    learning.last = copy_of(plan, &best.branch);
    let potentials = solve(learning, alloc, plan, vetoes, &best)?;
    Ok(Outcome::Found {
        branch: best.branch,
        cost: best.cost,
        potentials,
        leaves,
    })
}
