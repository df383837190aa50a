//! From branch to branch: a flow gets the edges that are active after some first picks.
ghost use Rattle.std.specs.Prelude.{◌≡◌, ◌<◌, true, false, IfSome, IsTrue, List, Option, length, replicate};
ghost use Rattle.uhura_plan.specs.declared.limits.TheConstants.{REQUIREMENTS};
ghost use Rattle.uhura_flow.specs.Flow.{flow_edges, IsFlow, IsFlowEdge};
ghost use Rattle.uhura_choice.specs.declared.prefix.Pick.{Pick};
ghost use Rattle.uhura_net.specs.declared.edge.Edge.{Edge};
ghost use Rattle.uhura_net.specs.declared.place.TheConstants.{PLACES};
ghost use Rattle.uhura_net.specs.Edges.{Edges};
ghost use Rattle.uhura_plan.specs.Sound.{IsSound};
ghost use Rattle.uhura_veto.specs.Vetoes.{AreSoundVetoes};
ghost use Rattle.uhura_veto.specs.State.{State};
ghost use Rattle.uhura_worst.specs.Filled.{IsTableOf};
ghost use Rattle.uhura_dual.specs.Settled.{AreSettled, AreAllSettled};
ghost use Rattle.uhura_search.specs.Moving.{HasMarks, is_marked, is_loose_at, marked_edges, active_edges, AreAmong};
ghost use Rattle.uhura_search.specs.Moving.{AreListed, HasFlowBounds, IsTakenOut, HasTakenAt, IsPutIn, IsPutAt, IsMoved};
ghost use Rattle.uhura_net.specs.Place.{place_number, HasPlace};
ghost use Rattle.uhura_net.specs.Circulation.{edges_of};
ghost use Rattle.uhura_worst.specs.Edges.{item_of};
ghost use Rattle.uhura_dual.specs.Settled.{key_at};

use uhura_choice::{Prefix, holds};
use uhura_flow::{Flow, Settled};
use uhura_net::{Edge, EdgeTable, PLACES, Place, key_of};
use uhura_plan::{EdgeKey, Item, Plan, REQUIREMENTS};

/// Whether a flow has the edges that it is to have, or a closed walk of such edges that aren't loose has bounds that
/// sum below 0.
#[derive(Clone, Copy, Debug, PartialEq, Eq)]
pub enum Moved {
    Holds,
    Stuck,
}

/// Brings a flow to exactly the edges of the table that are active after the picks: first those go that are to go,
/// then, where any are missing, the loose ones come, and then the others. It stops at the first edge that the flow is
/// stuck at. The places are those that have an edge, and no others are looked at.
pub(crate) fn move_to(
    flow: &mut Flow,
    table: &EdgeTable,
    places: &[u32],
    plan: &Plan,
    prefix: &Prefix,
) -> Moved
    requires bounds { HasFlowBounds table.now }
    requires listed { AreListed places.now table.now }
    requires present { AreAmong (flow_edges flow.old) (edges_of table.now) }
    ensures { IsMoved flow.old flow.new (active_edges table.now plan.now prefix.now) result }
{
    let mut active = [false; REQUIREMENTS as usize];
    mark_active(&mut active, plan, prefix);
    if take_out(flow, table, places, &active) {
        return Moved::Holds;
    }
    match put_in(flow, table, places, &active, true) {
        Moved::Stuck => Moved::Stuck,
        Moved::Holds => put_in(flow, table, places, &active, false),
    }
}

/// Marks the slots of the requirements that are active after the picks.
fn mark_active(active: &mut [bool], plan: &Plan, prefix: &Prefix)
    requires { active.old ≡ replicate REQUIREMENTS false }
    ensures { HasMarks plan.now prefix.now active.new }
{
    for position in 0..plan.requirements() {
        let requirement = plan.requirement(position).unwrap();
        active[requirement.slot as usize] = holds(&requirement.guard, prefix);
    }
}

/// Whether the item of an edge is marked. Durations always are.
fn is_marked(active: &[bool], key: EdgeKey) -> bool
    requires slots { length active.now ≡ REQUIREMENTS }
    requires key { HasPlace key }
    ensures { result ≡ is_marked active.now (item_of key) }
{
    let item = match key {
        EdgeKey::Loose(side) | EdgeKey::Firm(side) | EdgeKey::Steep(side) => side.item,
        EdgeKey::Order(duration) => Item::Uncertain(duration),
    };
    match item {
        Item::Requirement(slot) => active[slot as usize],
        Item::Uncertain(_) => true,
    }
}

/// Whether the edge at a place is loose.
fn is_loose(place: Place) -> bool
    requires { place.0 < PLACES }
    ensures { result ≡ is_loose_at place.0 }
{
    match key_of(place) {
        EdgeKey::Loose(_) | EdgeKey::Steep(_) => true,
        EdgeKey::Firm(_) | EdgeKey::Order(_) => false,
    }
}

/// The edge that the flow is to have at a place.
fn wanted(table: &EdgeTable, active: &[bool], place: Place) -> Option<Edge>
    requires slots { length active.now ≡ REQUIREMENTS }
    requires bounds { HasFlowBounds table.now }
    requires place { place.0 < PLACES }
    ensures edge { result ≡ marked_edges table.now active.now place.0 }
    ensures fits { IfSome result (IsFlowEdge place.0) }
    ensures places { length table.now ≡ PLACES }
{
    let key = key_of(place);
    let edge = table_edge(table, place, key);
    if is_marked(active, key) { edge } else { None }
}

/// The edge of a key in the table.
pub(crate) fn table_edge(table: &EdgeTable, place: Place, key: EdgeKey) -> Option<Edge>
    requires key { HasPlace key }
    requires stands { place_number key ≡ place.0 }
    requires bounds { HasFlowBounds table.now }
    requires place { place.0 < PLACES }
    ensures edge { result ≡ edges_of table.now place.0 }
    ensures key { key_at place.0 ≡ key }
    ensures fits { IfSome result (IsFlowEdge place.0) }
    ensures places { length table.now ≡ PLACES }
{
    table.get(place)
}

/// Takes out each edge that isn't the one that the flow is to have there, and tells whether none is missing then.
fn take_out(flow: &mut Flow, table: &EdgeTable, places: &[u32], active: &[bool]) -> bool
    requires slots { length active.now ≡ REQUIREMENTS }
    requires bounds { HasFlowBounds table.now }
    requires listed { AreListed places.now table.now }
    requires present { AreAmong (flow_edges flow.old) (edges_of table.now) }
    ensures taken { IsTakenOut flow.old flow.new (marked_edges table.now active.now) }
    ensures whole { IsTrue result →
        AreAmong (marked_edges table.now active.now) (flow_edges flow.new) }
{
    let mut whole = true;
    for number in places {
        let place = Place(*number);
        let edge = wanted(table, active, place);
        take_at(flow, place, edge);
        whole = whole && has_at(flow, place, edge);
    }
    whole
}

/// Takes the edge out of a place, unless it is the given one.
pub(crate) fn take_at(flow: &mut Flow, place: Place, edge: Option<Edge>)
    requires { place.0 < PLACES }
    ensures { HasTakenAt flow.old flow.new place.0 edge }
{
    let held = flow.edge(place);
    if held.is_some() && held != edge {
        flow.remove(place);
    }
}

/// Whether the flow has the edge at a place.
fn has_at(flow: &Flow, place: Place, edge: Option<Edge>) -> bool
    requires { place.0 < PLACES }
    ensures { result ≡ true → flow_edges flow.now place.0 ≡ edge }
{
    flow.edge(place) == edge
}

/// Puts in the loose edges that the flow is to have and hasn't, or those that aren't loose.
fn put_in(flow: &mut Flow, table: &EdgeTable, places: &[u32], active: &[bool], loose: bool) -> Moved
    requires slots { length active.now ≡ REQUIREMENTS }
    requires bounds { HasFlowBounds table.now }
    requires listed { AreListed places.now table.now }
    requires among { AreAmong (flow_edges flow.old) (marked_edges table.now active.now) }
    ensures { IsPutIn flow.old flow.new (marked_edges table.now active.now) loose result }
{
    for number in places {
        let place = Place(*number);
        let edge = wanted(table, active, place);
        if is_loose(place) != loose {
            continue;
        }
        match put_at(flow, place, edge) {
            Moved::Stuck => return Moved::Stuck,
            Moved::Holds => {}
        }
    }
    Moved::Holds
}

/// Puts in an edge where the flow has none.
pub(crate) fn put_at(flow: &mut Flow, place: Place, edge: Option<Edge>) -> Moved
    requires place { place.0 < PLACES }
    requires edge { IfSome edge (IsFlowEdge place.0) }
    ensures { IsPutAt flow.old flow.new place.0 edge result }
{
    if flow.edge(place).is_some() {
        return Moved::Holds;
    }
    let Some(edge) = edge else {
        return Moved::Holds;
    };
    match flow.insert(place, edge) {
        Settled::Optimal => Moved::Holds,
        Settled::Stuck => Moved::Stuck,
    }
}

/// Where a table is that of a state, the edges in it that are active after some picks are the settled ones, all of
/// them; so edges among them are settled.
pub fn active_edges_are_settled()
    ensures all { (state : State) (picks : List Pick) (table : List (Option Edge)) →
        IsTableOf state table → length table ≡ PLACES →
        AreAllSettled state picks (active_edges table state.plan picks) }
    ensures some { (state : State) (picks : List Pick) (table : List (Option Edge)) (few : Edges) →
        IsTableOf state table → length table ≡ PLACES →
        AreAmong few (active_edges table state.plan picks) → AreSettled state picks few }
{}

/// In a table of a state all bounds are within those of a flow.
pub fn tables_of_states_have_bounds_of_flows()
    ensures { (state : State) (table : List (Option Edge)) → IsSound state.plan →
        AreSoundVetoes state.vetoes → IsTableOf state table → HasFlowBounds table }
{}
