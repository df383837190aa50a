//! A proof as text.
ghost use Rattle.std.specs.Prelude.{◌≡◌, IfOk, OnErr, OnOk};
ghost use Rattle.uhura_search.specs.Answer.{shown_leaves};
ghost use Rattle.uhura_proof.specs.Proof.{IsShown, IsProof, AppendsProof};

use crate::document::document_of;
use std::alloc::{AllocError, Global};
use uhura_cert::{Proposal, write_document};
use uhura_command::State;
use uhura_search::LeafNote;

/// The text of the document of an answer that leaves show.
fn proof_of(
    alloc: Global,
    state: &State,
    answer: Option<Proposal>,
    leaves: &[LeafNote],
) -> Result<Vec<u8>, AllocError>
    requires { IsShown state.now answer (shown_leaves state.now leaves.now) }
    ensures { IfOk result (λ text. IsProof state.now answer text.items) }
{
    let document = document_of(alloc, state, answer, leaves)?;
    write_document(alloc, &document)
}

/// Appends the text of the document of an answer that leaves show. Where there is no memory, the text stays.
pub fn put_proof(
    alloc: Global,
    text: &mut Vec<u8>,
    state: &State,
    answer: Option<Proposal>,
    leaves: &[LeafNote],
) -> Result<(), AllocError>
    requires { IsShown state.now answer (shown_leaves state.now leaves.now) }
    ensures ok { OnOk result (AppendsProof state.now answer text.old.items text.new.items) }
    ensures err { OnErr result (text.new.items ≡ text.old.items) }
{
    let proof = proof_of(alloc, state, answer, leaves)?;
    text.extend_from_slice(proof.as_slice())
}
