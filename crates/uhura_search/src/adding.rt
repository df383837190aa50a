//! Conflicts that are added to the store.
ghost use Rattle.std.specs.Prelude.{◌≡◌, ℕ, List, IsTrue, IsFalse, OnOk, OnErr, MatchBool};
ghost use Rattle.uhura_choice.specs.Branch.{IsBranch};
ghost use Rattle.uhura_net.specs.Edges.{Edges};
ghost use Rattle.uhura_net.specs.Circulation.{edges_of};
ghost use Rattle.uhura_net.specs.Net.{net_value};
ghost use Rattle.uhura_net.specs.Optimal.{firm_edges};
ghost use Rattle.uhura_net.specs.Walk.{IsNegativeWalk};
ghost use Rattle.uhura_flow.specs.Flow.{flow_edges};
ghost use Rattle.uhura_conflict.specs.declared.bound.Bound.{Bound};
ghost use Rattle.uhura_conflict.specs.declared.bound.Bound.TheVariants.{Stuck};
ghost use Rattle.uhura_conflict.specs.Learned.{Learned, places_in, IsValid};
ghost use Rattle.uhura_conflict.specs.Literals.{AreLiteralsOf, Applies};
ghost use Rattle.uhura_conflict.specs.Store.{IsBest, ExceedsBest, value_at};
ghost use Rattle.uhura_search.specs.Moving.{AreAmong, AreListed, active_edges};
ghost use Rattle.uhura_veto.specs.declared.veto.Veto.{Veto};
ghost use Rattle.uhura_search.specs.Asked.{LearnsSome, LearnsOrStops};
ghost use Rattle.uhura_search.specs.Learning.{IsReady, HasAddedAt, AreCounts, IsWorthMore, IsShutByValue};

use crate::learning::Learning;
use crate::shut::is_less;
use std::alloc::{AllocError, Global};
use uhura_choice::Branch;
use uhura_conflict::{Bound, Conflict, Store};
use uhura_plan::Plan;

/// Adds a conflict at a branch, and counts it.
fn add(
    learning: &mut Learning,
    conflict: Conflict,
    plan: &Plan,
    branch: &Branch,
) -> Result<(), AllocError>
    requires valid { IsValid (edges_of learning.old.store.table) conflict }
    requires applies { Applies branch.now conflict }
    requires exceeds { ExceedsBest learning.old.store branch.now conflict }
    requires literals { AreLiteralsOf plan.now (places_in conflict.pairs) conflict.literals }
    ensures ok { OnOk result
        (HasAddedAt plan.now learning.old learning.new branch.now conflict) }
    ensures err { OnErr result (learning.new ≡ learning.old) }
{
    match learning.store.add(conflict, branch) {
        Ok(_) => {
            learning.added = learning.added.saturating_add(1);
            Ok(())
        }
        Err(_) => Err(AllocError),
    }
}

/// Adds the closed walk at which the flow was stuck on the way to a branch.
pub(crate) fn add_stuck(
    learning: &mut Learning,
    alloc: Global,
    plan: &Plan,
    branch: &Branch,
) -> Result<(), AllocError>
    requires is_branch { IsBranch plan.now.choices branch.now }
    requires table { learning.old.store.table ≡ learning.old.table }
    requires listed { AreListed learning.old.places learning.old.table }
    requires walk { (edges : Edges)
        × AreAmong edges (active_edges learning.old.table plan.now branch.now)
        × IsNegativeWalk (firm_edges edges) learning.old.flow.cycle }
    requires unknown { (key : ℕ) → IsBest learning.old.store branch.now (Stuck key) → ⊥ }
    ensures ok { OnOk result ((conflict : Learned) × IsTrue conflict.stuck
        × HasAddedAt plan.now learning.old learning.new branch.now conflict) }
    ensures err { OnErr result (learning.new ≡ learning.old) }
{
    // By its type the plan is sound, and the store has a best at the branch.
    let _ = (plan.choices(), learning.store.best(branch));
    let conflict = Conflict::stuck(alloc, plan, learning.flow.stuck_cycle())?;
    add(learning, conflict, plan, branch)
}

/// Adds the flow's units, which are worth more than what is known of the branch. Its edges are active there.
fn add_flow(
    learning: &mut Learning,
    alloc: Global,
    plan: &Plan,
    branch: &Branch,
) -> Result<(), AllocError>
    requires is_branch { IsBranch plan.now.choices branch.now }
    requires table { learning.old.store.table ≡ learning.old.table }
    requires listed { AreListed learning.old.places learning.old.table }
    requires among { AreAmong (flow_edges learning.old.flow)
        (active_edges learning.old.table plan.now branch.now) }
    requires more { IsWorthMore learning.old.store branch.now (net_value learning.old.flow.net) }
    ensures ok { OnOk result ((conflict : Learned) × IsFalse conflict.stuck
        × (value_at learning.new.store conflict ≡ net_value learning.old.flow.net)
        × HasAddedAt plan.now learning.old learning.new branch.now conflict) }
    ensures err { OnErr result (learning.new ≡ learning.old) }
{
    // By their types the plan is sound, and the units are a circulation.
    let _ = (plan.choices(), learning.flow.value());
    let conflict = Conflict::flow_among(alloc, plan, &learning.flow, learning.places.as_slice())?;
    add(learning, conflict, plan, branch)
}

/// Whether a value is more than what is known of the branch.
fn is_worth_more(store: &Store, branch: &Branch, value: i128) -> bool
    ensures { MatchBool result (IsWorthMore store.now branch.now value)
        (IsShutByValue store.now branch.now value) }
{
    match store.best(branch) {
        Bound::Stuck { .. } => false,
        Bound::Flow { value: most, .. } => is_less(most, value),
        Bound::Nothing => is_less(0, value),
    }
}

/// Reads the flow and adds its units, where they are worth more than what is known of the branch. Its edges are
/// active there.
pub(crate) fn note_flow(
    learning: &mut Learning,
    alloc: Global,
    plan: &Plan,
    branch: &Branch,
    value: i128,
) -> Result<(), AllocError>
    requires is_branch { IsBranch plan.now.choices branch.now }
    requires table { learning.old.store.table ≡ learning.old.table }
    requires listed { AreListed learning.old.places learning.old.table }
    requires among { AreAmong (flow_edges learning.old.flow)
        (active_edges learning.old.table plan.now branch.now) }
    requires counts { AreCounts learning.old }
    requires value { value ≡ net_value learning.old.flow.net }
    ensures learns { OnOk result (LearnsSome plan.now.choices learning.old learning.new) }
    ensures stops { LearnsOrStops plan.now.choices learning.old learning.new }
    ensures shut { OnOk result (IsShutByValue learning.new.store branch.now value) }
    ensures ready { (vetoes : List Veto) →
        IsReady (record { plan = plan.now; vetoes = vetoes }) learning.old →
        IsReady (record { plan = plan.now; vetoes = vetoes }) learning.new }
{
    if !is_worth_more(&learning.store, branch, value) {
        return Ok(());
    }
    learning.flow.reading();
    add_flow(learning, alloc, plan, branch)
}
