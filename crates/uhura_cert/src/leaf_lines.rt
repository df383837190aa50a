//! The leaves of a document, and its shared entries, written.
ghost use Rattle.std.specs.Prelude.{◌≡◌, ◌++◌, flat_map, All, IfOk};
ghost use Rattle.uhura_item.specs.declared.item.Item.TheVariants as item;
ghost use Rattle.uhura_item.specs.Item.{item_line};
ghost use Rattle.uhura_cert.specs.Order.{place_in};
ghost use Rattle.uhura_cert.specs.Document.{IsShared, IsReasonOf, ArePicks, CanShow};
ghost use Rattle.uhura_cert.specs.Items.{picked_names, shared_items, reason_items, leaf_items};

use crate::items::veto_name;
use crate::leaf::picked_names;
use crate::write::{put_headed_flow, put_headed_walk, put_shared};
use crate::{Leaf, Reason, Shared};
use std::alloc::AllocError;
use uhura_choice::Pick;
use uhura_command::State;
use uhura_item::{Item, put_item};
use uhura_plan::Plan;

/// Appends the lines of a leaf's reason.
fn put_reason(out: &mut Vec<u8>, state: &State, reason: &Reason) -> Result<(), AllocError>
    requires { IsReasonOf (place_in state.now.plan) state.now reason.now }
    ensures { IfOk result (λ _. out.new.items ≡
        out.old.items ++ flat_map item_line (reason_items state.now reason.now)) }
{
    match reason {
        Reason::Denied(veto) => put_item(out, &Item::Denied(veto_name(&state.vetoes, *veto)))?,
        Reason::Flow(edges) => put_headed_flow(out, &state.plan, &Item::Flow, edges.as_slice())?,
        Reason::Stuck(edges) => put_headed_walk(out, &state.plan, &Item::Stuck, edges.as_slice())?,
        Reason::Entry(entry) => put_item(out, &Item::Use(*entry))?,
    }
    Ok(())
}

/// Appends the first line of a leaf.
fn put_prefix(out: &mut Vec<u8>, plan: &Plan, picks: &[Pick]) -> Result<(), AllocError>
    requires { ArePicks plan.now.choices picks.now }
    ensures { IfOk result (λ _. out.new.items ≡
        out.old.items ++ item_line (item.Leaf (picked_names plan.now.choices picks.now))) }
{
    // By its type the plan is sound.
    let _ = plan.choices();
    let names = picked_names(out.allocator().clone()?, plan, picks)?;
    put_item(out, &Item::Leaf(names))?;
    Ok(())
}

/// Appends the lines of a leaf.
fn put_leaf(out: &mut Vec<u8>, state: &State, leaf: &Leaf) -> Result<(), AllocError>
    requires { CanShow state.now leaf.now }
    ensures { IfOk result (λ _. out.new.items ≡
        out.old.items ++ flat_map item_line (leaf_items state.now leaf.now)) }
{
    put_prefix(out, &state.plan, leaf.prefix.as_slice())?;
    put_reason(out, state, &leaf.reason)?;
    Ok(())
}

/// Appends the lines of the leaves.
pub(crate) fn put_leaves(
    out: &mut Vec<u8>,
    state: &State,
    leaves: &[Leaf],
) -> Result<(), AllocError>
    requires { All (CanShow state.now) leaves.now }
    ensures { IfOk result (λ _. out.new.items ≡
        out.old.items ++ flat_map item_line (flat_map (leaf_items state.now) leaves.now)) }
{
    for leaf in leaves {
        put_leaf(out, state, leaf)?;
    }
    Ok(())
}

/// Appends the lines of the shared entries.
pub(crate) fn put_entries(
    out: &mut Vec<u8>,
    plan: &Plan,
    entries: &[Shared],
) -> Result<(), AllocError>
    requires { All (IsShared (place_in plan.now) plan.now) entries.now }
    ensures { IfOk result (λ _. out.new.items ≡
        out.old.items ++ flat_map item_line (flat_map (shared_items plan.now) entries.now)) }
{
    for entry in entries {
        put_shared(out, plan, entry)?;
    }
    Ok(())
}
