//! Proofs are confirmed. Each contract is a law over the definitions, and the bodies are empty.
ghost use Rattle.uhura_proof.specs.Read.{SlotsConfirmNothing, ProofsAreConfirmed};

/// Whether a document is confirmed doesn't depend on the slots of its requirements.
pub fn slots_confirm_nothing()
    ensures { SlotsConfirmNothing }
{}

/// The text of a proof is read as a confirmed document, where there is memory.
pub fn proofs_are_confirmed()
    ensures { ProofsAreConfirmed }
{}
