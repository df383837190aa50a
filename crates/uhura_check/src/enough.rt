//! Whether what a leaf shows is enough for the answer.
ghost use Rattle.std.specs.Prelude.{◌≡◌, ◌+◌, ◌*◌, ℕ, pos, ◌+ℤ◌, ◌≤ℤ◌, List, IfSome};
ghost use Rattle.std.specs.Bool.{Decides};
ghost use Rattle.uhura_plan.specs.declared.key.EdgeKey.{EdgeKey};
ghost use Rattle.uhura_choice.specs.Branch.{IsBranch, IsPrefix, picked_cost};
ghost use Rattle.uhura_choice.specs.Order.{ArePrefixesOfOne};
ghost use Rattle.uhura_shows.specs.Carried.{value_of_pairs};
ghost use Rattle.uhura_check.specs.Conditions.{Suffices};
ghost use Rattle.uhura_check.specs.Edges.{IsWithin, most_edges, greatest_worth};
ghost use Rattle.uhura_check.specs.Reaches.{Reaches};

use std::cmp::Ordering;
use uhura_choice::{Branch, Prefix, compare, picked_cost};
use uhura_command::State;
use uhura_plan::Plan;

/// Whether a value and the costs picked in the prefix are at least the cost of the answer, and more where the prefix
/// is earlier than its branch. They are never enough where there is no proposal.
pub(crate) fn is_enough(
    state: &State,
    answer: &Option<(Branch, u128)>,
    prefix: &Prefix,
    value: i128,
) -> bool
    requires prefix { IsPrefix state.now.plan.choices prefix.now }
    requires answer { IfSome answer.now (λ a. IsBranch state.now.plan.choices a.0) }
    requires value { IsWithin (most_edges * greatest_worth) value }
    ensures { (pairs : List (EdgeKey × ℕ)) → value ≡ value_of_pairs state.now pairs →
        Decides result (Suffices state.now answer.now prefix.now pairs) }
{
    match answer {
        Some((branch, cost)) => {
            let shown = shown_cost(&state.plan, prefix, value);
            reaches(shown, *cost, prefix, branch)
        }
        None => false,
    }
}

/// A value, and the costs picked in the prefix.
fn shown_cost(plan: &Plan, prefix: &Prefix, value: i128) -> i128
    requires { IsWithin (most_edges * greatest_worth) value }
    ensures { result ≡ value +ℤ pos (picked_cost plan.now.choices prefix.now) }
{
    value + i128::from(picked_cost(plan, prefix))
}

/// Whether what is shown is at least the cost, and more where the prefix is earlier than the branch.
fn reaches(shown: i128, cost: u128, prefix: &Prefix, branch: &Branch) -> bool
    requires { ArePrefixesOfOne prefix.now branch.now }
    ensures { Decides result (Reaches shown cost prefix.now branch.now) }
{
    match compare(prefix, branch) {
        Ordering::Less => is_more(shown, cost),
        Ordering::Equal => is_as_much(shown, cost),
        Ordering::Greater => is_as_much(shown, cost),
    }
}

/// Whether what is shown is more than the cost.
fn is_more(shown: i128, cost: u128) -> bool
    ensures { Decides result (pos (cost + 1) ≤ℤ shown) }
{
    shown >= 0 && cost < shown as u128
}

/// Whether it is at least the cost.
fn is_as_much(shown: i128, cost: u128) -> bool
    ensures { Decides result (pos cost ≤ℤ shown) }
{
    shown >= 0 && cost <= shown as u128
}
