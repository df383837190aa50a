//! Whether a leaf comes next behind those before it.
ghost use Rattle.std.specs.Prelude.{◌≡◌, List, IfSome, MatchOption};
ghost use Rattle.std.specs.Bool.{Decides};
ghost use Rattle.uhura_choice.specs.declared.prefix.Pick.{Pick};
ghost use Rattle.uhura_choice.specs.Branch.{IsBranch, IsPrefix};
ghost use Rattle.uhura_choice.specs.Order.{IsFrontOf};
ghost use Rattle.uhura_shows.specs.Behind.{CoversUpTo};
ghost use Rattle.uhura_check.specs.Conditions.{ComesNext};
ghost use Rattle.uhura_check.specs.Walked.{IsNextPrefix};

use uhura_choice::{Branch, Pick, Prefix, compare};
use uhura_plan::Plan;
use uhura_shows::prefix_of_first;

/// The picks as a prefix, where they come next behind others that cover the branches up to `next`.
pub(crate) fn next_prefix(
    plan: &Plan,
    next: &Option<Branch>,
    answer: &Option<(Branch, u128)>,
    picks: &[Pick],
) -> Option<Prefix>
    requires next { IfSome next.now (IsBranch plan.now.choices) }
    requires answer { IfSome answer.now (λ a. IsBranch plan.now.choices a.0) }
    ensures prefix { IfSome result (IsPrefix plan.now.choices) }
    ensures next { (before : List (List Pick)) → CoversUpTo plan.now.choices before next.now →
        MatchOption result (ComesNext plan.now.choices answer.now before picks.now → ⊥)
        (IsNextPrefix plan.now.choices answer.now before picks.now) }
{
    let Some(branch) = next else {
        return None;
    };
    let Some(prefix) = prefix_of_first(plan, picks, branch) else {
        return None;
    };
    if may_stand(plan, &prefix, answer) {
        Some(prefix)
    } else {
        None
    }
}

/// Whether the prefix is no proper prefix of the answer's branch.
fn may_stand(plan: &Plan, prefix: &Prefix, answer: &Option<(Branch, u128)>) -> bool
    requires prefix { IsPrefix plan.now.choices prefix.now }
    requires answer { IfSome answer.now (λ a. IsBranch plan.now.choices a.0) }
    ensures { Decides result (IfSome answer.now
        (λ a. IsFrontOf prefix.now a.0 → prefix.now ≡ a.0)) }
{
    match answer {
        Some((branch, _)) => is_no_proper_front(plan, prefix, branch),
        None => true,
    }
}

/// Whether the prefix is no proper prefix of the branch.
fn is_no_proper_front(plan: &Plan, prefix: &Prefix, branch: &Branch) -> bool
    requires prefix { IsPrefix plan.now.choices prefix.now }
    requires branch { IsBranch plan.now.choices branch.now }
    ensures { Decides result (IsFrontOf prefix.now branch.now → prefix.now ≡ branch.now) }
{
    compare(prefix, branch).is_ne() || prefix.entries().len() >= branch.entries().len()
}
