//! Documents and proposals that are written.
ghost use Rattle.std.specs.Prelude.{◌≡◌, ◌++◌, ◌∷◌, map, flat_map, IfOk, IfSome, OnOk, OnErr};
ghost use Rattle.uhura_text.specs.Lines.{lines};
ghost use Rattle.uhura_item.specs.Item.{item_line, IsItem};
ghost use Rattle.uhura_cert.specs.Document.{IsDocument, IsProposal, AreEdgeUnits, AreEdges, IsShared};
ghost use Rattle.uhura_cert.specs.Order.{place_in};
ghost use Rattle.uhura_cert.specs.Items.{proposal_items, answer_items, units_item, edge_item, shared_items, text_of};
ghost use Rattle.uhura_cert.specs.Text.{TextOf};

use crate::leaf_lines::{put_entries, put_leaves};
use crate::lists::{put_edges, put_picks, put_sides, put_times, put_units};
use crate::{Document, Leaf, Proposal, Shared};
use std::alloc::{AllocError, Global};
use uhura_command::State;
use uhura_item::{Item, put_item};
use uhura_plan::{EdgeKey, Plan};

/// Appends the lines of a proposal over a plan.
fn put_proposal_lines(out: &mut Vec<u8>, plan: &Plan, proposal: &Proposal) -> Result<(), AllocError>
    requires { IsProposal plan.now proposal.now }
    ensures { IfOk result (λ _. out.new.items ≡
        out.old.items ++ flat_map item_line (proposal_items plan.now proposal.now)) }
{
    // By its type the plan is sound.
    let _ = plan.choices();
    put_item(out, &Item::Proposal(proposal.cost))?;
    put_picks(out, plan, proposal.picks.as_slice())?;
    put_sides(out, plan, proposal.loosening.pairs())?;
    put_times(out, plan, proposal.times.as_slice())?;
    put_item(out, &Item::End)?;
    Ok(())
}

/// Appends the lines of a proposal over a state: its cost, its picks, the sides that it loosens or narrows, and the time
/// of each controllable event.
pub fn write_proposal(
    out: &mut Vec<u8>,
    state: &State,
    proposal: &Proposal,
) -> Result<(), AllocError>
    requires { IsProposal state.now.plan proposal.now }
    ensures ok { OnOk result (out.new.items ≡
        out.old.items ++ flat_map item_line (proposal_items state.now.plan proposal.now)) }
    ensures err { OnErr result (out.new.items ≡ out.old.items) }
{
    let mut text = Vec::new(out.allocator().clone()?);
    put_proposal_lines(&mut text, &state.plan, proposal)?;
    out.extend_from_slice(text.as_slice())
}

/// Appends the lines of an answer.
fn put_answer(out: &mut Vec<u8>, plan: &Plan, answer: &Option<Proposal>) -> Result<(), AllocError>
    requires { IfSome answer.now (IsProposal plan.now) }
    ensures { IfOk result (λ _. out.new.items ≡
        out.old.items ++ flat_map item_line (answer_items plan.now answer.now)) }
{
    match answer {
        Some(proposal) => put_proposal_lines(out, plan, proposal)?,
        None => put_item(out, &Item::Nothing)?,
    }
    Ok(())
}

/// Appends the edges of a circulation with their units.
fn put_flow(out: &mut Vec<u8>, plan: &Plan, edges: &[(EdgeKey, u64)]) -> Result<(), AllocError>
    requires { AreEdgeUnits (place_in plan.now) plan.now edges.now }
    ensures { IfOk result (λ _. out.new.items ≡
        out.old.items ++ flat_map item_line (map (units_item plan.now) edges.now)) }
{
    // By its type the plan is sound.
    let _ = plan.choices();
    put_units(out, plan, edges)?;
    Ok(())
}

/// Appends the edges of a walk.
fn put_walk(out: &mut Vec<u8>, plan: &Plan, edges: &[EdgeKey]) -> Result<(), AllocError>
    requires { AreEdges plan.now edges.now }
    ensures { IfOk result (λ _. out.new.items ≡
        out.old.items ++ flat_map item_line (map (edge_item plan.now) edges.now)) }
{
    // By its type the plan is sound.
    let _ = plan.choices();
    put_edges(out, plan, edges)?;
    Ok(())
}

/// Appends a circulation behind the line that begins it.
pub(crate) fn put_headed_flow(
    out: &mut Vec<u8>,
    plan: &Plan,
    head: &Item,
    edges: &[(EdgeKey, u64)],
) -> Result<(), AllocError>
    requires head { IsItem head.now }
    requires edges { AreEdgeUnits (place_in plan.now) plan.now edges.now }
    ensures { IfOk result (λ _. out.new.items ≡
        out.old.items ++ flat_map item_line (head.now ∷ map (units_item plan.now) edges.now)) }
{
    put_item(out, head)?;
    put_flow(out, plan, edges)?;
    Ok(())
}

/// Appends a walk behind the line that begins it.
pub(crate) fn put_headed_walk(
    out: &mut Vec<u8>,
    plan: &Plan,
    head: &Item,
    edges: &[EdgeKey],
) -> Result<(), AllocError>
    requires head { IsItem head.now }
    requires edges { AreEdges plan.now edges.now }
    ensures { IfOk result (λ _. out.new.items ≡
        out.old.items ++ flat_map item_line (head.now ∷ map (edge_item plan.now) edges.now)) }
{
    put_item(out, head)?;
    put_walk(out, plan, edges)?;
    Ok(())
}

/// Appends the lines of a shared entry.
pub(crate) fn put_shared(out: &mut Vec<u8>, plan: &Plan, entry: &Shared) -> Result<(), AllocError>
    requires { IsShared (place_in plan.now) plan.now entry.now }
    ensures { IfOk result (λ _. out.new.items ≡
        out.old.items ++ flat_map item_line (shared_items plan.now entry.now)) }
{
    match entry {
        Shared::Flow(edges) => put_headed_flow(out, plan, &Item::SharedFlow, edges.as_slice())?,
        Shared::Stuck(edges) => put_headed_walk(out, plan, &Item::SharedStuck, edges.as_slice())?,
    }
    Ok(())
}

/// The canonical text of a document of these parts.
fn parts_text(
    alloc: Global,
    version: u32,
    state: &State,
    answer: &Option<Proposal>,
    shared: &[Shared],
    leaves: &[Leaf],
) -> Result<Vec<u8>, AllocError>
    requires { IsDocument (record {
      version = version;
      state = state.now;
      answer = answer.now;
      shared = shared.now;
      leaves = leaves.now;
    }) }
    ensures { IfOk result (λ text. text.items ≡ text_of (record {
      version = version;
      state = state.now;
      answer = answer.now;
      shared = shared.now;
      leaves = leaves.now;
    })) }
{
    let mut text = Vec::new(alloc);
    put_item(&mut text, &Item::Version(version))?;
    state.script(&mut text)?;
    put_item(&mut text, &Item::Answer)?;
    put_answer(&mut text, &state.plan, answer)?;
    put_entries(&mut text, &state.plan, shared)?;
    put_leaves(&mut text, state, leaves)?;
    put_item(&mut text, &Item::End)?;
    Ok(text)
}

/// The canonical text of a document. Its lines are the document's.
pub fn write_document(alloc: Global, document: &Document) -> Result<Vec<u8>, AllocError>
    ensures text { IfOk result (λ text. text.items ≡ text_of document.now) }
    ensures reads_back { IfOk result (λ text. TextOf document.now (lines text.items)) }
{
    let text = parts_text(
        alloc,
        document.version,
        &document.state,
        &document.answer,
        document.shared.as_slice(),
        document.leaves.as_slice(),
    )?;
    Ok(text)
}
