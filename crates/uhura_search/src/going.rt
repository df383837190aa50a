//! On along a branch: a flow gets the edges of what becomes active with more picks.
ghost use Rattle.std.specs.Prelude.{◌≡◌, ◌<◌, ◌≤◌, ℕ, true, IsTrue, MatchBool};
ghost use Rattle.uhura_choice.specs.Branch.{holds};
ghost use Rattle.uhura_choice.specs.Order.{IsFrontOf};
ghost use Rattle.uhura_flow.specs.Flow.{flow_edges};
ghost use Rattle.uhura_net.specs.declared.place.TheConstants.{PLACES};
ghost use Rattle.uhura_plan.specs.declared.limits.TheConstants.{REQUIREMENTS};
ghost use Rattle.uhura_search.specs.Going.{PutsAll, IsFrom, IsInSlot};
ghost use Rattle.uhura_search.specs.Moving.{HasFlowBounds, IsMoved, active_edges};

use crate::moving::{Moved, put_at, table_edge};
use uhura_choice::{Prefix, holds};
use uhura_flow::Flow;
use uhura_net::{EdgeTable, Place, key_of, place_of};
use uhura_plan::{EdgeKey, Guard, Item, Plan, Side, SideKey};

/// Brings a flow from exactly the edges of the table that are active after some picks to exactly those that are
/// active after more of them: edges come, and none goes. It stops at the first edge that the flow is stuck at.
pub(crate) fn go_on(
    flow: &mut Flow,
    table: &EdgeTable,
    plan: &Plan,
    before: &Prefix,
    after: &Prefix,
) -> Moved
    requires bounds { HasFlowBounds table.now }
    requires begins { IsFrontOf before.now after.now }
    requires stands { (place : ℕ) →
        flow_edges flow.old place ≡ active_edges table.now plan.now before.now place }
    ensures { IsMoved flow.old flow.new (active_edges table.now plan.now after.now) result }
{
    for position in 0..plan.requirements() {
        let requirement = plan.requirement(position).unwrap();
        if !becomes_active(&requirement.guard, before, after) {
            continue;
        }
        match put_slot(flow, table, requirement.slot) {
            Moved::Stuck => return Moved::Stuck,
            Moved::Holds => {}
        }
    }
    Moved::Holds
}

/// Whether a guard holds after more picks, and didn't before.
fn becomes_active(guard: &Guard, before: &Prefix, after: &Prefix) -> bool
    ensures { MatchBool result (IsTrue (holds guard.now after.now))
        (holds guard.now after.now ≡ true → holds guard.now before.now ≡ true) }
{
    !holds(guard, before) && holds(guard, after)
}

/// Puts in the edges of the requirement in a slot where the flow has none.
fn put_slot(flow: &mut Flow, table: &EdgeTable, slot: u32) -> Moved
    requires bounds { HasFlowBounds table.now }
    requires slot { slot < REQUIREMENTS }
    ensures { PutsAll flow.old flow.new table.now (IsInSlot slot) result }
{
    let side = SideKey {
        item: Item::Requirement(slot),
        side: Side::Lower,
    };
    let first = place_of(EdgeKey::Loose(side)).0;
    let steep = place_of(EdgeKey::Steep(side)).0;
    match put_from(flow, table, first, first + 4) {
        Moved::Stuck => Moved::Stuck,
        Moved::Holds => put_from(flow, table, steep, steep + 2),
    }
}

/// Puts in the edges at places one after another where the flow has none.
fn put_from(flow: &mut Flow, table: &EdgeTable, first: u32, last: u32) -> Moved
    requires bounds { HasFlowBounds table.now }
    requires order { first ≤ last }
    requires inside { last ≤ PLACES }
    ensures { PutsAll flow.old flow.new table.now (IsFrom first last) result }
{
    for number in first..last {
        let place = Place(number);
        let edge = table_edge(table, place, key_of(place));
        match put_at(flow, place, edge) {
            Moved::Stuck => return Moved::Stuck,
            Moved::Holds => {}
        }
    }
    Moved::Holds
}
