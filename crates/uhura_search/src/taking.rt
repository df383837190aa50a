//! Taking over a plan with vetoes.
ghost use Rattle.std.specs.Prelude.{◌≡◌, ◌<◌, ℕ, Contains, IsFalse, IsSome, All, length};
ghost use Rattle.uhura_plan.specs.declared.limits.TheConstants.{REQUIREMENTS};
ghost use Rattle.uhura_flow.specs.Flow.{flow_edges};
ghost use Rattle.uhura_net.specs.declared.place.TheConstants.{PLACES};
ghost use Rattle.uhura_net.specs.Circulation.{edges_of};
ghost use Rattle.uhura_worst.specs.Edges.{tables_under};
ghost use Rattle.uhura_worst.specs.Filled.{IsFilledBy};
ghost use Rattle.uhura_conflict.specs.Store.{empty_store};
ghost use Rattle.uhura_search.specs.Guards.{HaveGuardsOf, AllAskForGuards};
ghost use Rattle.uhura_search.specs.Learning.{IsLearningFor};
ghost use Rattle.uhura_search.specs.Moving.{AreListed, HasAll, IsTakenOut, IsUnsettled};
ghost use Rattle.uhura_search.specs.Refilled.{tables_without, IsNoneMarked};
ghost use Rattle.uhura_search.specs.Revised.{IsRevisedStore};
ghost use Rattle.uhura_search.specs.Searcher.{KeepsNothing};
ghost use Rattle.uhura_search.specs.Taken.{IsOverTable, TakesTable};

use crate::guards::reguard;
use crate::learning::Learning;
use crate::moving::take_at;
use crate::places::Places;
use crate::refilling::refill;
use uhura_flow::Flow;
use uhura_net::{EdgeTable, Place};
use uhura_plan::{Guard, Plan, REQUIREMENTS};
use uhura_veto::Vetoes;
use uhura_worst::fill;

/// Fills the table, gives up the conflicts that don't outlast the change, and takes the edges that changed out of the
/// flow: first without the slots that have another guard, if there are any, and then with all. Nothing is put into
/// the flow, so that it isn't found stuck.
pub(crate) fn take_over(learning: &mut Learning, guards: &mut [Guard], plan: &Plan, vetoes: &Vetoes)
    requires slots { length guards.old ≡ REQUIREMENTS }
    requires literals { AllAskForGuards guards.old learning.old.store }
    requires over { IsOverTable learning.old }
    ensures kept { IsLearningFor (record { plan = plan.now; vetoes = vetoes.now }) learning.new }
    ensures listed { AreListed learning.new.places learning.new.table }
    ensures guards { HaveGuardsOf guards.new plan.now.requirements }
    ensures literals { AllAskForGuards guards.new learning.new.store }
    ensures store { IsRevisedStore learning.old.store learning.new.store guards.old guards.new }
    ensures flow { IsUnsettled learning.old.flow learning.new.flow }
    ensures added { learning.new.added ≡ learning.old.added }
{
    let mut marks = [false; REQUIREMENTS as usize];
    let any = reguard(guards, &mut marks, plan);
    take_table(learning, plan, vetoes, &marks);
    put_back(learning, plan, vetoes, &marks, any);
}

/// Fills the table for a first question, before which nothing was kept: no conflict is there to be given up, and no
/// edge to be taken out of the flow. All places are gone over once, so that those that have an edge needn't be put
/// into their order one by one.
pub(crate) fn take_first(
    learning: &mut Learning,
    guards: &mut [Guard],
    plan: &Plan,
    vetoes: &Vetoes,
)
    requires slots { length guards.old ≡ REQUIREMENTS }
    requires over { IsOverTable learning.old }
    requires empty { learning.old.store ≡ empty_store }
    ensures kept { IsLearningFor (record { plan = plan.now; vetoes = vetoes.now }) learning.new }
    ensures listed { AreListed learning.new.places learning.new.table }
    ensures guards { HaveGuardsOf guards.new plan.now.requirements }
    ensures literals { AllAskForGuards guards.new learning.new.store }
    ensures store { KeepsNothing learning.new.store }
    ensures flow { IsUnsettled learning.old.flow learning.new.flow }
    ensures added { learning.new.added ≡ learning.old.added }
{
    let mut marks = [false; REQUIREMENTS as usize];
    let _ = reguard(guards, &mut marks, plan);
    fill(&mut learning.table, plan, vetoes);
    learning.places.list(&learning.table);
    learning
        .store
        .revise_at(&learning.table, learning.places.as_slice());
}

/// Takes over the whole table, where the edges in marked slots are left out so far, if there are any.
fn put_back(learning: &mut Learning, plan: &Plan, vetoes: &Vetoes, marks: &[bool], any: bool)
    requires over { IsOverTable learning.old }
    requires filled { IsFilledBy (tables_without marks.now vetoes.now) plan.now learning.old.table }
    requires none { IsFalse any → IsNoneMarked marks.now }
    ensures { TakesTable (tables_under vetoes.now) plan.now learning.old learning.new }
{
    if any {
        take_table(learning, plan, vetoes, &[false; REQUIREMENTS as usize]);
    } else {
        learning.store.revise_at(&learning.table, &[]);
    }
}

/// Takes over the table under these vetoes, without the edges of requirements in marked slots: the conflicts that
/// don't outlast the change are given up, and the edges that changed are taken out of the flow.
fn take_table(learning: &mut Learning, plan: &Plan, vetoes: &Vetoes, marks: &[bool])
    requires marks { length marks.now ≡ REQUIREMENTS }
    requires over { IsOverTable learning.old }
    ensures { TakesTable (tables_without marks.now vetoes.now) plan.now learning.old learning.new }
{
    refill(
        &mut learning.table,
        learning.places.as_slice(),
        &mut learning.changed,
        plan,
        vetoes,
        marks,
    );
    let changed = learning.changed.as_slice();
    learning.store.revise_at(&learning.table, changed);
    take_out_changed(&mut learning.flow, &learning.table, changed);
    list_changed(&mut learning.places, &learning.table, changed);
}

/// Takes each edge at these places that isn't one of the table out of the flow.
fn take_out_changed(flow: &mut Flow, table: &EdgeTable, changed: &[u32])
    requires inside { All (λ place. place < PLACES) changed.now }
    requires others { (place : ℕ) → (Contains changed.now place → ⊥) →
        HasAll (flow_edges flow.old) (edges_of table.now) place }
    ensures { IsTakenOut flow.old flow.new (edges_of table.now) }
{
    for number in changed {
        let place = Place(*number);
        let edge = table.get(place);
        take_at(flow, place, edge);
    }
}

/// Lists those of these places that have an edge in the table, and the others no more.
fn list_changed(places: &mut Places, table: &EdgeTable, changed: &[u32])
    requires inside { All (λ place. place < PLACES) changed.now }
    requires others { (place : ℕ) → (Contains changed.now place → ⊥) →
        IsSome (edges_of table.now place) → Contains places.old place }
    ensures { AreListed places.new table.now }
{
    for number in changed {
        let place = Place(*number);
        places.set(place, table.get(place).is_some());
    }
    // By its type the list rises.
    let _ = places.as_slice();
}
