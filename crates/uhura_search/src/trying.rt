//! What is learned of a branch, and whether it becomes the best so far.
ghost use Rattle.std.specs.Prelude.{◌≡◌, ◌≤◌, ◌^◌, ◌+ℤ◌, pos, IfSome, OnOk};
ghost use Rattle.uhura_choice.specs.Branch.{IsBranch, picked_cost};
ghost use Rattle.uhura_flow.specs.Flow.{flow_edges, IsFlow};
ghost use Rattle.uhura_net.specs.Net.{net_value};
ghost use Rattle.uhura_veto.specs.State.{State};
ghost use Rattle.uhura_search.specs.Shut.{IsSmallCost, IsDear, IsShut};
ghost use Rattle.uhura_search.specs.Moving.{AreAmong, active_edges};
ghost use Rattle.uhura_search.specs.Closed.{NoneBegins};
ghost use Rattle.uhura_search.specs.Asked.{LearnsOrStops};
ghost use Rattle.uhura_search.specs.Learning.{IsReady, StandsAt, IsReachedAt, IsCostValue, IsBettered, Closes};

use crate::adding::{add_stuck, note_flow};
use crate::incumbent::Incumbent;
use crate::learning::Learning;
use crate::shut::is_dear;
use crate::stepping::{Stop, step};
use std::alloc::{AllocError, Global};
use uhura_choice::{Branch, picked_cost};
use uhura_flow::Flow;
use uhura_plan::Plan;
use uhura_shows::front_of;
use uhura_veto::Vetoes;

/// A branch again.
pub(crate) fn copy_of(plan: &Plan, branch: &Branch) -> Branch
    requires { IsBranch plan.now.choices branch.now }
    ensures { result ≡ branch.now }
{
    front_of(plan, branch, branch.entries().len())
}

/// What a value and the picks of a branch cost together.
fn cost_with(plan: &Plan, branch: &Branch, value: i128) -> u128
    requires { IsCostValue value }
    ensures cost { pos result ≡ value +ℤ pos (picked_cost plan.now.choices branch.now) }
    ensures small { result ≤ 2 ^ 100 }
{
    (value + i128::from(picked_cost(plan, branch))) as u128
}

/// The value of a flow.
pub(crate) fn value_of(flow: &Flow) -> i128
    ensures value { result ≡ net_value flow.now.net }
    ensures cost { IsCostValue result }
    ensures sound { IsFlow flow.now }
{
    flow.value()
}

/// Lets the branch be the best so far, unless its value is enough for the one that is.
pub(crate) fn better(best: &mut Option<Incumbent>, plan: &Plan, branch: &Branch, value: i128)
    requires is_branch { IsBranch plan.now.choices branch.now }
    requires best { IfSome best.old (λ i. IsBranch plan.now.choices i.branch) }
    requires small { IfSome best.old IsSmallCost }
    requires value { IsCostValue value }
    ensures bettered { IsBettered plan.now branch.now value best.old best.new }
    ensures small { IfSome best.new IsSmallCost }
{
    if is_dear(plan, best, branch, value) {
        return;
    }
    *best = Some(Incumbent {
        branch: copy_of(plan, branch),
        cost: cost_with(plan, branch, value),
    });
}

/// Learns of the branch at which the flow stands.
fn look(
    learning: &mut Learning,
    best: &mut Option<Incumbent>,
    alloc: Global,
    plan: &Plan,
    vetoes: &Vetoes,
    branch: &Branch,
) -> Result<(), AllocError>
    requires is_branch { IsBranch plan.now.choices branch.now }
    requires ready { IsReady (record { plan = plan.now; vetoes = vetoes.now }) learning.old }
    requires stands { StandsAt plan.now learning.old branch.now }
    requires reached { let state : State = record { plan = plan.now; vetoes = vetoes.now } in
        IfSome best.old (IsReachedAt state) }
    requires open { let state : State = record { plan = plan.now; vetoes = vetoes.now } in
        NoneBegins (IsShut state learning.old.store best.old) branch.now }
    ensures closes { let state : State = record { plan = plan.now; vetoes = vetoes.now } in
        OnOk result (Closes state learning.old learning.new best.old best.new branch.now) }
    ensures stops { LearnsOrStops plan.now.choices learning.old learning.new }
    ensures ready { IsReady (record { plan = plan.now; vetoes = vetoes.now }) learning.new }
{
    let value = value_of(&learning.flow);
    note_flow(learning, alloc, plan, branch, value)?;
    better(best, plan, branch, value);
    Ok(())
}

/// Learns what the flow is worth, which is enough for the best so far. Its edges are active in the branch.
fn learn_dear(
    learning: &mut Learning,
    best: &Option<Incumbent>,
    alloc: Global,
    plan: &Plan,
    vetoes: &Vetoes,
    branch: &Branch,
) -> Result<(), AllocError>
    requires is_branch { IsBranch plan.now.choices branch.now }
    requires ready { IsReady (record { plan = plan.now; vetoes = vetoes.now }) learning.old }
    requires among { AreAmong (flow_edges learning.old.flow)
        (active_edges learning.old.table plan.now branch.now) }
    requires dear { IsDear plan.now best.now branch.now (net_value learning.old.flow.net) }
    requires reached { let state : State = record { plan = plan.now; vetoes = vetoes.now } in
        IfSome best.now (IsReachedAt state) }
    ensures closes { let state : State = record { plan = plan.now; vetoes = vetoes.now } in
        OnOk result (Closes state learning.old learning.new best.now best.now branch.now) }
    ensures stops { LearnsOrStops plan.now.choices learning.old learning.new }
    ensures ready { IsReady (record { plan = plan.now; vetoes = vetoes.now }) learning.new }
{
    let value = value_of(&learning.flow);
    note_flow(learning, alloc, plan, branch, value)
}

/// Learns of a branch of which no prefix is shut, so that it is: that the flow is stuck on the way to it, or is worth
/// enough there for the best so far, at its first picks if it may be. Where it isn't worth enough, the branch is the
/// best from then on.
pub(crate) fn learn(
    learning: &mut Learning,
    best: &mut Option<Incumbent>,
    alloc: Global,
    plan: &Plan,
    vetoes: &Vetoes,
    branch: &Branch,
) -> Result<(), AllocError>
    requires is_branch { IsBranch plan.now.choices branch.now }
    requires ready { IsReady (record { plan = plan.now; vetoes = vetoes.now }) learning.old }
    requires reached { let state : State = record { plan = plan.now; vetoes = vetoes.now } in
        IfSome best.old (IsReachedAt state) }
    requires open { let state : State = record { plan = plan.now; vetoes = vetoes.now } in
        NoneBegins (IsShut state learning.old.store best.old) branch.now }
    ensures closes { let state : State = record { plan = plan.now; vetoes = vetoes.now } in
        OnOk result (Closes state learning.old learning.new best.old best.new branch.now) }
    ensures stops { LearnsOrStops plan.now.choices learning.old learning.new }
    ensures ready { IsReady (record { plan = plan.now; vetoes = vetoes.now }) learning.new }
{
    let places = learning.places.as_slice();
    let stands = &mut learning.stands;
    match step(
        &mut learning.flow,
        &learning.table,
        places,
        stands,
        plan,
        best,
        branch,
    ) {
        Stop::Stuck => add_stuck(learning, alloc, plan, branch),
        Stop::Dear => learn_dear(learning, best, alloc, plan, vetoes, branch),
        Stop::Open => look(learning, best, alloc, plan, vetoes, branch),
    }
}
