//! Leaves that cover all branches of a prefix.
ghost use Rattle.std.specs.Prelude.{◌≡◌, [], ◌∷◌, IfOk, OnOk, IfSome};
ghost use Rattle.uhura_choice.specs.Branch.{IsBranch, IsPrefix};
ghost use Rattle.uhura_veto.specs.State.{State};
ghost use Rattle.uhura_shows.specs.Shows.{Shows};
ghost use Rattle.uhura_search.specs.Answer.{shown_leaves};
ghost use Rattle.uhura_search.specs.Known.{IsStoreFor, IsReached, answer_of};
ghost use Rattle.uhura_search.specs.Shut.{IsSmallCost, IsShut, IsNoted};
ghost use Rattle.uhura_search.specs.Closed.{AreAllShut, NoneAbove};
ghost use Rattle.uhura_search.specs.Appended.{AppendsCover};
ghost use Rattle.uhura_search.specs.Asked.{AreEntered};

use crate::LeafNote;
use crate::incumbent::Incumbent;
use crate::shut::reason_of;
use std::alloc::{AllocError, Global};
use uhura_choice::{Prefix, child, children};
use uhura_conflict::Store;
use uhura_plan::Plan;
use uhura_veto::Vetoes;

/// Leaves that show the best so far. Each branch has a prefix that is shut, and the leaves are the shortest of these.
/// What they were learned of are entries of the store.
pub(crate) fn leaves_of(
    alloc: Global,
    plan: &Plan,
    vetoes: &Vetoes,
    store: &Store,
    best: &Option<Incumbent>,
) -> Result<Vec<LeafNote>, AllocError>
    requires branch { IfSome best.now (λ i. IsBranch plan.now.choices i.branch) }
    requires small { IfSome best.now IsSmallCost }
    requires store { IsStoreFor (record { plan = plan.now; vetoes = vetoes.now }) store.now }
    requires reached { IsReached (record { plan = plan.now; vetoes = vetoes.now }) best.now }
    requires closed { AreAllShut plan.now.choices
        (IsShut (record { plan = plan.now; vetoes = vetoes.now }) store.now best.now) }
    ensures shows { let state : State = record { plan = plan.now; vetoes = vetoes.now } in
        IfOk result (λ leaves.
        Shows state (answer_of best.now) (shown_leaves state leaves.items)) }
    ensures entered { IfOk result (λ leaves. AreEntered store.now leaves.items) }
{
    // By their types the plan and the vetoes are sound.
    let _ = (plan.choices(), vetoes.count());
    let mut leaves = Vec::new(alloc);
    put_leaves(plan, vetoes, store, best, Prefix::empty(), &mut leaves)?;
    Ok(leaves)
}

/// Appends leaves for all branches of the prefix: the prefix itself where it is shut, and otherwise those of its
/// children, one after the other.
pub(crate) fn put_leaves(
    plan: &Plan,
    vetoes: &Vetoes,
    store: &Store,
    best: &Option<Incumbent>,
    prefix: Prefix,
    leaves: &mut Vec<LeafNote>,
) -> Result<(), AllocError>
    requires prefix { IsPrefix plan.now.choices prefix }
    requires branch { IfSome best.now (λ i. IsBranch plan.now.choices i.branch) }
    requires small { IfSome best.now IsSmallCost }
    requires above { NoneAbove (IsShut (record { plan = plan.now; vetoes = vetoes.now })
        store.now best.now) prefix }
    requires closed { AreAllShut plan.now.choices
        (IsShut (record { plan = plan.now; vetoes = vetoes.now }) store.now best.now) }
    ensures { OnOk result (AppendsCover plan.now.choices
        (IsNoted (record { plan = plan.now; vetoes = vetoes.now }) store.now best.now)
        (prefix ∷ []) leaves.old.items leaves.new.items) }
{
    if let Some(reason) = reason_of(plan, vetoes, store, best, &prefix)? {
        leaves.push(LeafNote { prefix, reason })?;
        return Ok(());
    }
    // By its type the plan is sound.
    let _ = plan.choices();
    for index in 0..children(plan, &prefix) {
        let child = child(plan, &prefix, index);
        put_leaves(plan, vetoes, store, best, child, leaves)?;
    }
    Ok(())
}
