//! The walk over the branches of a plan, in order.
ghost use Rattle.std.specs.Prelude.{◌≡◌, ◌≤◌, length, MatchOption};
ghost use Rattle.uhura_plan.specs.Sound.{IsSound};
ghost use Rattle.uhura_choice.specs.Branch.{IsBranch, IsPrefix};
ghost use Rattle.uhura_choice.specs.Walk.{IsFirstBranch, IsFirstFrom, IsLastBranch, IsNextBranch, later_pick, later_at};

use crate::extension::entry;
use crate::{Branch, Pick, Prefix};
use uhura_plan::{ALTERNATIVES, Choice, Plan};

/// The first branch of the plan.
pub fn first_branch(plan: &Plan) -> Branch
    ensures { IsFirstBranch plan.now.choices result }
{
    // By its type the plan is sound: each choice has an alternative.
    let _ = plan.choices();
    first_from(plan, Prefix::empty())
}

/// The branch after this one, and none exactly after the last. Each later choice is looked at once.
pub fn next_branch(plan: &Plan, branch: &Branch) -> Option<Branch>
    requires { IsBranch plan.now.choices branch.now }
    ensures { MatchOption result (IsLastBranch plan.now.choices branch.now)
        (IsNextBranch plan.now.choices branch.now) }
{
    for place in (0..branch.entries().len() as u32).rev() {
        if let Some(later) = later_at(plan, branch.entries(), place) {
            let mut prefix = branch.front(place as usize);
            prefix.push(later);
            return Some(first_from(plan, prefix));
        }
    }
    None
}

/// The alternative after the one picked at this place, where there is one.
fn later_at(plan: &Plan, picks: &[Pick], place: u32) -> Option<Pick>
    ensures later { result ≡ later_at plan.now.choices picks.now place }
    ensures sound { IsSound plan.now }
{
    let Some(choice) = plan.choice(place) else {
        return None;
    };
    match picks.get(place as usize) {
        Some(pick) => later_pick(choice, *pick),
        None => None,
    }
}

/// The alternative after this one in the choice, where there is one.
fn later_pick(choice: &Choice, pick: Pick) -> Option<Pick>
    requires { length choice.now.alternatives ≤ ALTERNATIVES }
    ensures { result ≡ later_pick choice.now pick }
{
    let Pick::Alternative(alternative) = pick else {
        return None;
    };
    if (alternative as usize) + 1 < choice.alternatives.as_slice().len() {
        Some(Pick::Alternative(alternative + 1))
    } else {
        None
    }
}

/// The first of the branches that begin with the prefix.
fn first_from(plan: &Plan, mut prefix: Prefix) -> Branch
    requires { IsPrefix plan.now.choices prefix }
    ensures { IsFirstFrom plan.now.choices prefix result }
{
    for place in prefix.entries().len() as u32..plan.choices() {
        prefix.push(entry(plan, &prefix, place, 0));
    }
    prefix
}
