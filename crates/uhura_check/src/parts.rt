//! The parts of a document, as its contract has them.
ghost use Rattle.std.specs.Prelude.{◌≡◌};
ghost use Rattle.uhura_cert.specs.Document.{IsDocument};

use uhura_cert::{Document, Leaf, Proposal};
use uhura_command::State;
use uhura_plan::Plan;

/// The state of a document.
pub(crate) fn state_of(document: &Document) -> &State
    ensures state { result.now ≡ document.now.state }
    ensures fits { IsDocument document.now }
{
    &document.state
}

/// The plan of a document.
pub(crate) fn plan_of(document: &Document) -> &Plan
    ensures plan { result.now ≡ document.now.state.plan }
    ensures fits { IsDocument document.now }
{
    &state_of(document).plan
}

/// The answer that a document states.
pub(crate) fn answer_of(document: &Document) -> &Option<Proposal>
    ensures answer { result.now ≡ document.now.answer }
    ensures fits { IsDocument document.now }
{
    &document.answer
}

/// The leaves of a document.
pub(crate) fn leaves_of(document: &Document) -> &[Leaf]
    ensures leaves { result.now ≡ document.now.leaves }
    ensures fits { IsDocument document.now }
{
    document.leaves.as_slice()
}
