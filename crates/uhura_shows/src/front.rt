//! The first picks of a branch, as a prefix.
ghost use Rattle.std.specs.Prelude.{◌≡◌, ◌≤◌, length, take, MatchOption};
ghost use Rattle.uhura_choice.specs.Branch.{IsBranch, IsPrefix};
ghost use Rattle.std.specs.Bool.{Decides};
ghost use Rattle.uhura_choice.specs.Order.{IsFrontOf};
ghost use Rattle.uhura_choice.specs.Walk.{IsFirstFrom};
ghost use Rattle.uhura_shows.specs.Behind.{IsPrefixOfFirst};

use crate::walk::{child_index, first_branch_with};
use uhura_choice::{Branch, Pick, Prefix, child};
use uhura_plan::Plan;

/// The first so many picks of a prefix.
pub fn front_of(plan: &Plan, prefix: &Prefix, len: usize) -> Prefix
    requires prefix { IsPrefix plan.now.choices prefix.now }
    requires short { len ≤ length prefix.now }
    ensures { result ≡ take len prefix.now }
{
    let mut front = Prefix::empty();
    for pick in &prefix.entries()[..len] {
        front = child(plan, &front, child_index(*pick));
    }
    front
}

/// The picks as a prefix, where they begin the branch and it is the first that they begin; and none elsewhere.
pub fn prefix_of_first(plan: &Plan, picks: &[Pick], branch: &Branch) -> Option<Prefix>
    requires { IsBranch plan.now.choices branch.now }
    ensures { MatchOption result (IsFirstFrom plan.now.choices picks.now branch.now → ⊥)
        (IsPrefixOfFirst plan.now.choices picks.now branch.now) }
{
    if !begins(picks, branch.entries()) {
        return None;
    }
    let first = first_branch_with(plan, front_of(plan, branch, picks.len()));
    if is_same(first.entries(), branch.entries()) {
        Some(front_of(plan, branch, picks.len()))
    } else {
        None
    }
}

/// Whether the first picks begin the others.
fn begins(front: &[Pick], picks: &[Pick]) -> bool
    ensures { Decides result (IsFrontOf front.now picks.now) }
{
    front.len() <= picks.len() && is_same(&picks[..front.len()], front)
}

/// Whether the picks are the same.
fn is_same(one: &[Pick], other: &[Pick]) -> bool
    ensures { Decides result (one.now ≡ other.now) }
{
    one == other
}
