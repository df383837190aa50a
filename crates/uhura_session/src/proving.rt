//! The answer to `prove`: a document of a best proposal, or of `none`.
ghost use Rattle.std.specs.Prelude.{◌≡◌, [], OnOk};
ghost use Rattle.uhura_search.specs.Searcher.{StandsFor};
ghost use Rattle.uhura_session.specs.Answers.{IsProved};
ghost use Rattle.uhura_session.specs.Found.{leaves_in};
ghost use Rattle.uhura_session.specs.Searching.{IsAnswered, IsAsked};

use crate::ask::{Found, ask};
use std::alloc::{AllocError, Global};
use uhura_command::State;
use uhura_proof::put_proof;
use uhura_relax::RelaxScratch;
use uhura_search::{LeafNote, Outcome, Searcher};

/// Asks the searcher, and writes a document of the answer into the empty text. The scratch is room to work in.
pub fn prove(
    alloc: Global,
    state: &State,
    searcher: &mut Searcher,
    relax: &mut RelaxScratch,
    text: &mut Vec<u8>,
) -> Result<(), AllocError>
    requires empty { text.old.items ≡ [] }
    requires stands_for { StandsFor searcher.old state.now }
    ensures proved { OnOk result (IsProved state.now text.new.items) }
    ensures answered { OnOk result (IsAnswered searcher.old searcher.new state.now.plan) }
    ensures asked { IsAsked searcher.old searcher.new state.now.plan }
    ensures stands_for { StandsFor searcher.new state.now }
{
    let Found { outcome, answer } = ask(alloc, state, searcher, relax)?;
    put_proof(alloc, text, state, answer, leaves_in(&outcome))
}

/// The leaves that show what was found.
fn leaves_in(outcome: &Outcome) -> &[LeafNote]
    ensures { result.now ≡ leaves_in outcome.now }
{
    match outcome {
        Outcome::Found { leaves, .. } => leaves.as_slice(),
        Outcome::None { leaves } => leaves.as_slice(),
    }
}
