//! A question: the searcher is asked, and what it finds is stated.
ghost use Rattle.std.specs.Prelude.{◌≡◌, IfOk, OnOk};
ghost use Rattle.uhura_search.specs.Searcher.{StandsFor};
ghost use Rattle.uhura_session.specs.Found.{IsFound};
ghost use Rattle.uhura_session.specs.Searching.{IsAnswered, IsAsked};

use std::alloc::{AllocError, Global};
use uhura_answer::stated_answer;
use uhura_cert::Proposal;
use uhura_command::State;
use uhura_relax::RelaxScratch;
use uhura_search::{Outcome, Searcher};

/// What was found, and the same as it is stated.
#[derive(Drop)]
pub struct Found {
    pub outcome: Outcome,
    pub answer: Option<Proposal>,
}

/// Asks the searcher once. The scratch is room to work in.
pub fn ask(
    alloc: Global,
    state: &State,
    searcher: &mut Searcher,
    relax: &mut RelaxScratch,
) -> Result<Found, AllocError>
    requires stands_for { StandsFor searcher.old state.now }
    ensures found { IfOk result (IsFound state.now) }
    ensures answered { OnOk result (IsAnswered searcher.old searcher.new state.now.plan) }
    ensures asked { IsAsked searcher.old searcher.new state.now.plan }
    ensures stands_for { StandsFor searcher.new state.now }
{
    let outcome = searcher.best(&state.plan, &state.vetoes)?;
    let answer = stated_answer(alloc, state, &outcome, relax)?;
    Ok(Found { outcome, answer })
}
