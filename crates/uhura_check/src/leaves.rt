//! What fails first among the conditions on the leaves. The walk keeps the first branch that no leaf so far covers;
//! the next leaf begins with it, and the walk goes on behind all that the leaf's prefix begins.
ghost use Rattle.std.specs.Prelude.{◌≡◌, ◌+◌, ℕ, [], List, length, IfSome, None, IfOk, MatchOption, MatchResult};
ghost use Rattle.uhura_choice.specs.declared.prefix.Pick.{Pick};
ghost use Rattle.uhura_choice.specs.Branch.{IsBranch};
ghost use Rattle.uhura_veto.specs.State.{State};
ghost use Rattle.uhura_shows.specs.Behind.{CoversUpTo};
ghost use Rattle.uhura_cert.specs.Document.{IsLeaf};
ghost use Rattle.uhura_cert.specs.Order.{place_in};
ghost use Rattle.uhura_cert.specs.Items.{reason_items, to_shared};
ghost use Rattle.uhura_check.specs.Entries.{AreEntriesOf};
ghost use Rattle.uhura_check.specs.Table.{line_behind, leaf_asks};
ghost use Rattle.uhura_check.specs.Failure.{told, IsToldFirst, Tells};
ghost use Rattle.uhura_check.specs.Walked.{IsPassed, IsMissingAt, rest_asks};

use crate::Code;
use crate::balance::Scratch;
use crate::covering::next_prefix;
use crate::entries::{Entries, entries_of};
use crate::failure::Failure;
use crate::lines::line_after;
use crate::parts::{leaves_of, plan_of};
use crate::reasons::reason_failure;
use std::alloc::{AllocError, Global};
use uhura_cert::{Document, Leaf, Reason};
use uhura_choice::{Branch, first_branch};
use uhura_shows::next_branch_behind;

/// How far a walk over the leaves has come: the first branch that is uncovered, and the line, as it is told.
#[derive(Drop)]
struct Reached {
    next: Option<Branch>,
    line: u32,
}

/// What the leaves fail first, one by one and then together.
pub(crate) fn leaves_failure(
    alloc: Global,
    document: &Document,
    answer: &Option<(Branch, u128)>,
) -> Result<Option<Failure>, AllocError>
    requires { IfSome answer.now (λ a. IsBranch document.now.state.plan.choices a.0) }
    ensures { IfOk result (λ found. Tells document.now.state answer.now (rest_asks document.now []
        (line_behind (to_shared document.now)) document.now.leaves) found) }
{
    let entries = entries_of(alloc.clone()?, document)?;
    let mut scratch = Scratch::new(alloc)?;
    let mut reached = Reached {
        next: Some(first_branch(plan_of(document))),
        line: entries.leaves_line,
    };
    let leaves = leaves_of(document);
    for place in 0..leaves.len() {
        let leaf = &leaves[place];
        match pass_leaf(document, &entries, &mut scratch, answer, &reached, leaf) {
            Ok(further) => reached = further,
            Err(failure) => return Ok(Some(failure)),
        }
    }
    Ok(missing(&reached))
}

/// What a leaf fails first, and how far the walk has come behind it where it fails nothing.
fn pass_leaf(
    document: &Document,
    entries: &Entries,
    scratch: &mut Scratch,
    answer: &Option<(Branch, u128)>,
    reached: &Reached,
    leaf: &Leaf,
) -> Result<Reached, Failure>
    requires entries { AreEntriesOf document.now entries.now }
    requires answer { IfSome answer.now (λ a. IsBranch document.now.state.plan.choices a.0) }
    requires next { IfSome reached.now.next (IsBranch document.now.state.plan.choices) }
    requires leaf { IsLeaf (place_in document.now.state.plan) document.now.version
        document.now.state (length document.now.shared) leaf.now }
    ensures { (before : List (List Pick)) (line : ℕ) →
        CoversUpTo document.now.state.plan.choices before reached.now.next →
        reached.now.line ≡ told line →
        MatchResult result (IsPassed document.now answer.now before line leaf.now)
        (IsToldFirst document.now.state answer.now
        (leaf_asks document.now before line leaf.now)) }
{
    let plan = plan_of(document);
    let picks = leaf.prefix.as_slice();
    let Some(prefix) = next_prefix(plan, &reached.next, answer, picks) else {
        return Err(Failure {
            code: Code::LeafOrder,
            line: reached.line,
        });
    };
    let own = line_after(reached.line, 1);
    let reason = &leaf.reason;
    match reason_failure(document, entries, scratch, answer, &prefix, reason, own) {
        Some(failure) => Err(failure),
        None => Ok(Reached {
            next: next_branch_behind(plan, &prefix),
            line: line_after(line_after(own, 1), edge_lines(reason)),
        }),
    }
}

/// How many lines of edges stand in a reason.
fn edge_lines(reason: &Reason) -> usize
    ensures { (state : State) → result + 1 ≡ length (reason_items state reason.now) }
{
    match reason {
        Reason::Flow(edges) => edges.as_slice().len(),
        Reason::Stuck(edges) => edges.as_slice().len(),
        Reason::Denied(_) | Reason::Entry(_) => 0,
    }
}

/// That a branch is left uncovered, where one is.
fn missing(reached: &Reached) -> Option<Failure>
    ensures { MatchOption result (reached.now.next ≡ None) (IsMissingAt reached.now) }
{
    if reached.next.is_some() {
        Some(Failure {
            code: Code::LeafMissing,
            line: reached.line,
        })
    } else {
        None
    }
}
