//! Another owner of an answer.
ghost use Rattle.std.specs.Prelude.{◌≡◌, All, IfOk};
ghost use Rattle.uhura_choice.specs.Branch.{IsPrefix};
ghost use Rattle.uhura_veto.specs.State.{State};
ghost use Rattle.uhura_search.specs.Answer.{IsAnswerTo};
ghost use Rattle.uhura_search.specs.Searcher.{said};

use crate::{LeafNote, LeafReason, Outcome};
use std::alloc::{AllocError, Global};
use uhura_choice::Prefix;
use uhura_plan::Plan;
use uhura_shows::front_of;
use uhura_veto::Vetoes;

/// Another owner of the answer: each conflict is shared, and all else is copied.
pub(crate) fn share(
    alloc: Global,
    plan: &Plan,
    vetoes: &Vetoes,
    outcome: &Outcome,
) -> Result<Outcome, AllocError>
    requires { let state : State = record { plan = plan.now; vetoes = vetoes.now } in
        IsAnswerTo state outcome.now }
    ensures { IfOk result (λ shared. said shared ≡ said outcome.now) }
{
    match outcome {
        Outcome::Found {
            branch,
            cost,
            potentials,
            leaves,
        } => Ok(Outcome::Found {
            branch: copy(plan, branch),
            cost: *cost,
            potentials: copy_all(alloc, potentials)?,
            leaves: share_leaves(alloc, plan, leaves)?,
        }),
        Outcome::None { leaves } => Ok(Outcome::None {
            leaves: share_leaves(alloc, plan, leaves)?,
        }),
    }
}

/// The prefix once more.
fn copy(plan: &Plan, prefix: &Prefix) -> Prefix
    requires { IsPrefix plan.now.choices prefix.now }
    ensures { result ≡ prefix.now }
{
    front_of(plan, prefix, prefix.entries().len())
}

/// The numbers once more.
fn copy_all(alloc: Global, numbers: &[i64]) -> Result<Vec<i64>, AllocError>
    ensures { IfOk result (λ copied. copied.items ≡ numbers.now) }
{
    let mut copied = Vec::with_capacity(alloc, numbers.len())?;
    for number in numbers {
        copied.push(*number)?;
    }
    Ok(copied)
}

/// Another owner of leaves.
fn share_leaves(
    alloc: Global,
    plan: &Plan,
    leaves: &[LeafNote],
) -> Result<Vec<LeafNote>, AllocError>
    requires { All (λ leaf. IsPrefix plan.now.choices leaf.prefix) leaves.now }
    ensures { IfOk result (λ shared. shared.items ≡ leaves.now) }
{
    let mut shared = Vec::with_capacity(alloc, leaves.len())?;
    for leaf in leaves {
        shared.push(LeafNote {
            prefix: copy(plan, &leaf.prefix),
            reason: share_reason(&leaf.reason)?,
        })?;
    }
    Ok(shared)
}

/// Another owner of a reason.
fn share_reason(reason: &LeafReason) -> Result<LeafReason, AllocError>
    ensures { IfOk result (λ shared. shared ≡ reason.now) }
{
    match reason {
        LeafReason::Denied(name) => Ok(LeafReason::Denied(*name)),
        LeafReason::Empty => Ok(LeafReason::Empty),
        LeafReason::Learned(conflict) => Ok(LeafReason::Learned(conflict.share()?)),
    }
}
