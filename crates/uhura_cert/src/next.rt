//! What may come next in a list of a document, by its name in a line.
ghost use Rattle.std.specs.Prelude.{◌≡◌, MatchOption, true, false, length, slice_get, Some};
ghost use Rattle.uhura_plan.specs.declared.guard.Literal.{Literal};
ghost use Rattle.uhura_plan.specs.declared.key.SideKey.{SideKey};
ghost use Rattle.uhura_plan.specs.declared.key.EdgeKey.{EdgeKey};
ghost use Rattle.uhura_cert.specs.Machine.{IsNextPick, IsNextSide, IsNextEdge};

use crate::named::{find_edge, find_literal, find_thing};
use crate::order::{edge_place, end_of_edges, end_of_picks, end_of_sides, side_place};
use uhura_command::ItemName;
use uhura_item::EdgeName;
use uhura_plan::{EdgeKey, Literal, Name, Plan, Side, SideKey};

/// The pick of these names, where it may come behind the others.
#[tactic(auto, using(crate::proofs::Nexts::no_pick, crate::proofs::Nexts::pick_before))]
pub(crate) fn next_pick(
    plan: &Plan,
    literals: &[Literal],
    choice: Name,
    alternative: Name,
) -> Option<Literal>
    ensures { MatchOption result
        ((l : Literal) → IsNextPick plan.now literals.now choice alternative l → ⊥)
        (IsNextPick plan.now literals.now choice alternative) }
{
    let Some(literal) = find_literal(plan, choice, alternative) else {
        return None;
    };
    if end_of_picks(literals) <= u64::from(literal.choice) {
        Some(literal)
    } else {
        None
    }
}

/// The side of this name, where it may come behind the others.
#[tactic(auto, using(crate::proofs::Nexts::no_side, crate::proofs::Nexts::side_before))]
pub(crate) fn next_side(
    plan: &Plan,
    sides: &[(SideKey, u64)],
    name: ItemName,
    side: Side,
) -> Option<SideKey>
    ensures { MatchOption result ((k : SideKey) → IsNextSide plan.now sides.now name side k → ⊥)
        (IsNextSide plan.now sides.now name side) }
{
    let Some(item) = find_thing(plan, name) else {
        return None;
    };
    let key = SideKey { item, side };
    if end_of_sides(sides) <= side_place(key) {
        Some(key)
    } else {
        None
    }
}

/// The edge of this name, where it may come behind the others.
#[tactic(auto, using(crate::proofs::Nexts::no_edge, crate::proofs::Nexts::edge_before))]
pub(crate) fn next_edge(plan: &Plan, edges: &[(EdgeKey, u64)], name: EdgeName) -> Option<EdgeKey>
    ensures { MatchOption result ((e : EdgeKey) → IsNextEdge plan.now edges.now name e → ⊥)
        (IsNextEdge plan.now edges.now name) }
{
    let Some(edge) = find_edge(plan, name) else {
        return None;
    };
    if end_of_edges(edges) <= edge_place(edge) {
        Some(edge)
    } else {
        None
    }
}

/// Whether the event's time comes behind so many others.
pub(crate) fn is_next_event(plan: &Plan, count: u32, event: Name) -> bool
    ensures yes { result ≡ true → slice_get plan.now.events count ≡ Some event }
    ensures no { result ≡ false → slice_get plan.now.events count ≡ Some event → ⊥ }
{
    match plan.event(count) {
        Some(next) => next == event,
        None => false,
    }
}
