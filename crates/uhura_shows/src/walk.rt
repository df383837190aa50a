//! The branch behind all those that a prefix begins. It stands here until it moves down beside `next_branch`, which
//! is then this for a whole branch.
ghost use Rattle.uhura_choice.specs.Branch.{IsPrefix};
ghost use Rattle.uhura_choice.specs.Walk.{IsFirstFrom};
ghost use Rattle.uhura_shows.specs.Behind.{IsBehind, LeadsBehind, child_index};
ghost use Rattle.std.specs.Prelude.{◌≡◌};

use uhura_choice::{Branch, Pick, Prefix, child, children};
use uhura_plan::Plan;

/// The first branch behind all those that the prefix begins, and none where no branch is behind them. Each choice is
/// looked at once or twice.
pub fn next_branch_behind(plan: &Plan, prefix: &Prefix) -> Option<Branch>
    requires { IsPrefix plan.now.choices prefix.now }
    ensures { IsBehind plan.now.choices prefix.now result }
{
    match prefix_behind(plan, prefix) {
        Some(later) => Some(first_branch_with(plan, later)),
        None => None,
    }
}

/// The first of the branches that begin with the prefix.
pub fn first_branch_with(plan: &Plan, mut prefix: Prefix) -> Branch
    requires { IsPrefix plan.now.choices prefix }
    ensures { IsFirstFrom plan.now.choices prefix result }
{
    for _place in prefix.entries().len() as u32..plan.choices() {
        prefix = child(plan, &prefix, 0);
    }
    prefix
}

/// The longest prefix behind this one with which the branches behind it begin: at the last place that has a later
/// alternative it takes that.
fn prefix_behind(plan: &Plan, prefix: &Prefix) -> Option<Prefix>
    requires { IsPrefix plan.now.choices prefix.now }
    ensures { LeadsBehind plan.now.choices prefix.now result }
{
    let _ = plan.choices();
    let mut front = Prefix::empty();
    let mut later = None;
    for pick in prefix.entries() {
        let index = child_index(*pick);
        let count = children(plan, &front);
        if index + 1 < count {
            later = Some(child(plan, &front, index + 1));
        }
        front = child(plan, &front, index);
    }
    later
}

/// How many children of a prefix come before the one with this entry.
pub(crate) fn child_index(pick: Pick) -> u32
    ensures { result ≡ child_index pick }
{
    match pick {
        Pick::Alternative(alternative) => alternative,
        Pick::Inactive => 0,
    }
}
