//! The walk over branches that closes them all.
ghost use Rattle.std.specs.Prelude.{◌<◌, IfOk, IfSome, List, OnOk, length};
ghost use Rattle.uhura_choice.specs.declared.prefix.Pick.{Pick};
ghost use Rattle.uhura_choice.specs.Branch.{IsBranch};
ghost use Rattle.uhura_choice.specs.Order.{IsFrontOf};
ghost use Rattle.uhura_veto.specs.State.{State};
ghost use Rattle.uhura_search.specs.Shut.{IsShut};
ghost use Rattle.uhura_search.specs.Closed.{AreAllShut, NoneBelow};
ghost use Rattle.uhura_search.specs.Asked.{LearnsSome, LearnsOrStops};
ghost use Rattle.uhura_search.specs.Learning.{IsReady, IsReachedAt, Closes};

use crate::fronts::shut_front;
use crate::incumbent::Incumbent;
use crate::learning::Learning;
use crate::starting::start;
use crate::stepping::shared;
use crate::trying::{copy_of, learn};
use std::alloc::{AllocError, Global};
use uhura_choice::{Branch, Prefix, first_branch};
use uhura_plan::Plan;
use uhura_shows::next_branch_behind;
use uhura_veto::Vetoes;

/// A prefix that is shut, of which no prefix with fewer picks than `least` is.
#[derive(Drop)]
struct Passed {
    prefix: Prefix,
    least: usize,
}

/// Closes a branch, of which no prefix with fewer picks than `least` is shut: by its shortest prefix that is, or,
/// where none is, by itself, when it was learned of.
fn close(
    learning: &mut Learning,
    best: &mut Option<Incumbent>,
    alloc: Global,
    plan: &Plan,
    vetoes: &Vetoes,
    branch: &Branch,
    least: usize,
) -> Result<Passed, AllocError>
    requires is_branch { IsBranch plan.now.choices branch.now }
    requires ready { IsReady (record { plan = plan.now; vetoes = vetoes.now }) learning.old }
    requires reached { let state : State = record { plan = plan.now; vetoes = vetoes.now } in
        IfSome best.old (IsReachedAt state) }
    requires none { let state : State = record { plan = plan.now; vetoes = vetoes.now } in
        NoneBelow (IsShut state learning.old.store best.old) branch.now least }
    ensures begins { IfOk result (λ passed. IsFrontOf passed.prefix branch.now) }
    ensures closes { let state : State = record { plan = plan.now; vetoes = vetoes.now } in
        IfOk result (λ passed.
        Closes state learning.old learning.new best.old best.new passed.prefix) }
    ensures none { let state : State = record { plan = plan.now; vetoes = vetoes.now } in
        IfOk result (λ passed.
        NoneBelow (IsShut state learning.new.store best.new) passed.prefix passed.least) }
    ensures stops { LearnsOrStops plan.now.choices learning.old learning.new }
    ensures ready { IsReady (record { plan = plan.now; vetoes = vetoes.now }) learning.new }
{
    if let Some(prefix) = shut_front(plan, vetoes, &learning.store, best, branch, least) {
        let least = prefix.entries().len();
        return Ok(Passed { prefix, least });
    }
    learn(learning, best, alloc, plan, vetoes, branch)?;
    Ok(Passed {
        prefix: copy_of(plan, branch),
        least: 0,
    })
}

/// So many picks that the prefixes of the branch with fewer of them are ones of what was passed too, of which none is
/// shut.
fn least_in(passed: &Passed, branch: &Branch) -> usize
    ensures { (front : List Pick) → IsFrontOf front branch.now → length front < result →
        IsFrontOf front passed.now.prefix × (length front < passed.now.least) }
{
    passed.least.min(shared(&passed.prefix, branch) + 1)
}

/// Closes the branches in order, and answers the best of them, if anything is allowed in any. It begins with the best
/// of some that were tried before. All branches of a prefix that is shut are passed at once.
pub(crate) fn close_all(
    learning: &mut Learning,
    alloc: Global,
    plan: &Plan,
    vetoes: &Vetoes,
) -> Result<Option<Incumbent>, AllocError>
    requires { IsReady (record { plan = plan.now; vetoes = vetoes.now }) learning.old }
    ensures reached { let state : State = record { plan = plan.now; vetoes = vetoes.now } in
        IfOk result (λ best. IfSome best (IsReachedAt state)) }
    ensures closed { let state : State = record { plan = plan.now; vetoes = vetoes.now } in
        IfOk result (λ best. AreAllShut plan.now.choices (IsShut state learning.new.store best)) }
    ensures learns { OnOk result (LearnsSome plan.now.choices learning.old learning.new) }
    ensures stops { LearnsOrStops plan.now.choices learning.old learning.new }
    ensures ready { IsReady (record { plan = plan.now; vetoes = vetoes.now }) learning.new }
{
    let mut best = start(learning, alloc, plan, vetoes)?;
    let mut branch = first_branch(plan);
    let mut least = 0;
    'walk: loop {
        let passed = close(learning, &mut best, alloc, plan, vetoes, &branch, least)?;
        let Some(next) = next_branch_behind(plan, &passed.prefix) else {
            return Ok(best);
        };
        least = least_in(&passed, &next);
        branch = next;
    }
}
