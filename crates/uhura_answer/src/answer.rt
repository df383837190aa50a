//! The stated answer.
ghost use Rattle.std.specs.Prelude.{ℕ, ℤ, IfOk};
ghost use Rattle.uhura_worst.specs.Allowed.{Allowed};
ghost use Rattle.uhura_relax.specs.Schedule.{proposal_with, IsEarliestSchedule};
ghost use Rattle.uhura_search.specs.Answer.{IsAnswerTo};
ghost use Rattle.uhura_answer.specs.Stated.{IsBestAnswer, IsStatedOf, IsFound, IsStatedWith};

use crate::literals::literals_of;
use std::alloc::{AllocError, Global};
use uhura_cert::{Listed, Proposal};
use uhura_choice::Branch;
use uhura_command::State;
use uhura_dual::loosening;
use uhura_relax::{RelaxRefusal, RelaxScratch, earliest_in};
use uhura_search::Outcome;
use uhura_worst::Loosening;

/// The answer to the question about the state, from what the search found: a best proposal, or none where nothing is
/// allowed. Of a branch that was found each side is loosened or narrowed by as much as the potentials pass its bound,
/// and the schedule is the earliest one under that. The scratch is room to work in; only the answer takes memory.
pub fn stated_answer(
    alloc: Global,
    state: &State,
    outcome: &Outcome,
    relax: &mut RelaxScratch,
) -> Result<Option<Proposal>, AllocError>
    requires { IsAnswerTo state.now outcome.now }
    ensures best { IfOk result (λ answer. IsBestAnswer state.now answer) }
    ensures stated { IfOk result (λ answer. IsStatedOf state.now outcome.now answer) }
{
    match outcome {
        Outcome::Found {
            branch,
            cost,
            potentials,
            ..
        } => {
            let proposal = stated_proposal(alloc, state, branch, *cost, potentials, relax)?;
            Ok(Some(proposal))
        }
        Outcome::None { .. } => {
            // A plan is sound.
            let _ = state.plan.requirements();
            Ok(None)
        }
    }
}

/// The best proposal of a branch that was found, with what it costs and with the potentials that it is read off.
fn stated_proposal(
    alloc: Global,
    state: &State,
    branch: &Branch,
    cost: u128,
    potentials: &[i64],
    relax: &mut RelaxScratch,
) -> Result<Proposal, AllocError>
    requires { IsFound state.now branch.now cost potentials.now }
    ensures { IfOk result (λ proposal. IsStatedWith state.now branch.now cost proposal) }
{
    // A plan is sound.
    let _ = state.plan.requirements();
    let loosening = loosening(alloc, &state.plan, &state.vetoes, branch, potentials)?;
    let times = earliest_times(alloc, state, branch, &loosening, relax)?;
    let picks = literals_of(alloc, branch)?;
    Ok(Proposal {
        cost,
        picks: Listed::from_vec(picks),
        loosening,
        times: Listed::from_vec(times),
    })
}

/// The times of the earliest schedule of the branch with these sides loosened and narrowed, under which some schedule
/// is allowed.
fn earliest_times(
    alloc: Global,
    state: &State,
    branch: &Branch,
    loosening: &Loosening,
    relax: &mut RelaxScratch,
) -> Result<Vec<u64>, AllocError>
    requires { (times : ℕ → ℤ) ×
        Allowed state.now 1 (proposal_with branch.now loosening.now times) }
    ensures { IfOk result (λ times.
        IsEarliestSchedule state.now.plan branch.now loosening.now times.items) }
{
    match earliest_in(alloc, &state.plan, branch, loosening, relax) {
        Ok(schedule) => Ok(schedule.into_times()),
        Err(RelaxRefusal::Memory(error)) => Err(error),
        Err(RelaxRefusal::Broken { .. }) => unreachable!(),
    }
}
