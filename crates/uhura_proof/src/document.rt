//! The document that shows an answer.
ghost use Rattle.std.specs.Prelude.{IfOk};
ghost use Rattle.uhura_search.specs.Answer.{shown_leaves};
ghost use Rattle.uhura_proof.specs.Proof.{IsShown, IsProofOf};

use crate::leaves::leaves_of;
use crate::order::places_of;
use std::alloc::{AllocError, Global};
use uhura_cert::{Document, Listed, Proposal};
use uhura_command::State;
use uhura_search::LeafNote;

/// The document of an answer that leaves show, over a copy of the state. It is of version 2, and is confirmed.
pub fn document_of(
    alloc: Global,
    state: &State,
    answer: Option<Proposal>,
    leaves: &[LeafNote],
) -> Result<Document, AllocError>
    requires { IsShown state.now answer (shown_leaves state.now leaves.now) }
    ensures { IfOk result (IsProofOf state.now answer) }
{
    // By its type the plan is sound.
    let _ = state.plan.choices();
    let places = places_of(alloc, &state.plan)?;
    let mut entries = Vec::new(alloc);
    let made = leaves_of(alloc, state, places.as_slice(), leaves, &mut entries)?;
    let copy = state.copy()?;
    Ok(Document {
        version: 2,
        state: copy,
        answer,
        shared: Listed::from_vec(entries),
        leaves: Listed::from_vec(made),
    })
}
