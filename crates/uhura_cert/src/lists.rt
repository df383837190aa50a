//! The lists of a document, a line for each thing.
ghost use Rattle.std.specs.Prelude.{◌≡◌, ◌++◌, ℕ, List, map, flat_map, All, ◌<◌, ◌≤◌, Some, IfOk, length, slice_get};
ghost use Rattle.std.specs.List.{zip};
ghost use Rattle.uhura_plan.specs.Sound.{IsName, IsLiteralAmong};
ghost use Rattle.uhura_veto.specs.Vetoes.{IsItemOf};
ghost use Rattle.uhura_item.specs.declared.limits.TheConstants.{LATEST};
ghost use Rattle.uhura_item.specs.Item.{item_line, IsItem};
ghost use Rattle.uhura_cert.specs.Order.{IsEdgeOf};
ghost use Rattle.uhura_cert.specs.Items.{pick_item, relax_item, time_item, units_item, edge_item};

use crate::items::{edge_name, pick_item, thing_name};
use std::alloc::AllocError;
use uhura_item::{Item, put_item};
use uhura_plan::{EdgeKey, Literal, Name, Plan, SideKey};

/// Appends a line for each pick.
pub(crate) fn put_picks(out: &mut Vec<u8>, plan: &Plan, picks: &[Literal]) -> Result<(), AllocError>
    requires among { All (IsLiteralAmong plan.now.choices) picks.now }
    requires fit { All (λ l. IsItem (pick_item plan.now l)) picks.now }
    ensures { IfOk result (λ _. out.new.items ≡
        out.old.items ++ flat_map item_line (map (pick_item plan.now) picks.now)) }
{
    for literal in picks {
        put_item(out, &pick_item(plan, *literal))?;
    }
    Ok(())
}

/// Appends a line for each side that is loosened or narrowed.
pub(crate) fn put_sides(
    out: &mut Vec<u8>,
    plan: &Plan,
    sides: &[(SideKey, u64)],
) -> Result<(), AllocError>
    requires there { All (λ s. IsItemOf plan.now s.0.item) sides.now }
    requires fit { All (λ s. IsItem (relax_item plan.now s)) sides.now }
    ensures { IfOk result (λ _. out.new.items ≡
        out.old.items ++ flat_map item_line (map (relax_item plan.now) sides.now)) }
{
    for (key, units) in sides {
        let item = Item::Relax(thing_name(plan, key.item), key.side, *units);
        put_item(out, &item)?;
    }
    Ok(())
}

/// Appends a line for each edge with its units.
pub(crate) fn put_units(
    out: &mut Vec<u8>,
    plan: &Plan,
    edges: &[(EdgeKey, u64)],
) -> Result<(), AllocError>
    requires there { All (λ e. IsEdgeOf plan.now e.0) edges.now }
    requires fit { All (λ e. IsItem (units_item plan.now e)) edges.now }
    ensures { IfOk result (λ _. out.new.items ≡
        out.old.items ++ flat_map item_line (map (units_item plan.now) edges.now)) }
{
    for (edge, units) in edges {
        put_item(out, &Item::Units(edge_name(plan, *edge), *units))?;
    }
    Ok(())
}

/// Appends a line for each edge of a walk.
pub(crate) fn put_edges(out: &mut Vec<u8>, plan: &Plan, edges: &[EdgeKey]) -> Result<(), AllocError>
    requires there { All (IsEdgeOf plan.now) edges.now }
    requires fit { All (λ e. IsItem (edge_item plan.now e)) edges.now }
    ensures { IfOk result (λ _. out.new.items ≡
        out.old.items ++ flat_map item_line (map (edge_item plan.now) edges.now)) }
{
    for edge in edges {
        put_item(out, &Item::Edge(edge_name(plan, *edge)))?;
    }
    Ok(())
}

/// The controllable event at a place.
fn event_at(plan: &Plan, place: u32) -> Name
    requires { place < length plan.now.events }
    ensures there { slice_get plan.now.events place ≡ Some result }
    ensures named { IsName result }
{
    let event = plan.event(place).unwrap();
    let _ = event.bytes();
    event
}

/// Appends a line for each controllable event with its time.
pub(crate) fn put_times(out: &mut Vec<u8>, plan: &Plan, times: &[u64]) -> Result<(), AllocError>
    requires count { length times.now ≡ length plan.now.events }
    requires within { All (λ time. time ≤ LATEST) times.now }
    ensures { IfOk result (λ _. out.new.items ≡
        out.old.items ++ flat_map item_line (map time_item (zip plan.now.events times.now))) }
{
    for place in 0..plan.events() {
        let event = event_at(plan, place);
        put_item(out, &Item::At(event, times[place as usize]))?;
    }
    Ok(())
}
