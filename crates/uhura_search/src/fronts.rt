//! The shortest prefix of a branch that is shut.
ghost use Rattle.std.specs.Prelude.{IfSome, MatchOption};
ghost use Rattle.uhura_choice.specs.Branch.{IsBranch};
ghost use Rattle.uhura_veto.specs.State.{State};
ghost use Rattle.uhura_search.specs.Shut.{IsSmallCost, IsShut};
ghost use Rattle.uhura_search.specs.Closed.{IsShortestFront, NoneBegins, NoneBelow};

use crate::incumbent::Incumbent;
use crate::shut::is_shut;
use uhura_choice::{Branch, Prefix};
use uhura_conflict::Store;
use uhura_plan::Plan;
use uhura_shows::front_of;
use uhura_veto::Vetoes;

/// The shortest prefix of the branch that is shut, if one is. None with fewer picks than `least` is. What shuts a
/// prefix shuts each longer one: so where neither the prefix with so many picks nor the branch is shut, no prefix is,
/// and else the shortest is found by halves. It takes no memory.
pub(crate) fn shut_front(
    plan: &Plan,
    vetoes: &Vetoes,
    store: &Store,
    best: &Option<Incumbent>,
    branch: &Branch,
    least: usize,
) -> Option<Prefix>
    requires is_branch { IsBranch plan.now.choices branch.now }
    requires branch { IfSome best.now (λ i. IsBranch plan.now.choices i.branch) }
    requires small { IfSome best.now IsSmallCost }
    requires none { let state : State = record { plan = plan.now; vetoes = vetoes.now } in
        NoneBelow (IsShut state store.now best.now) branch.now least }
    ensures { let state : State = record { plan = plan.now; vetoes = vetoes.now } in
        MatchOption result (NoneBegins (IsShut state store.now best.now) branch.now)
        (IsShortestFront (IsShut state store.now best.now) branch.now) }
{
    let mut most = branch.entries().len();
    let first = least.min(most);
    let front = front_of(plan, branch, first);
    if is_shut(plan, vetoes, store, best, &front) {
        return Some(front);
    }
    if !is_shut(plan, vetoes, store, best, branch) {
        return None;
    }
    let mut least = first + 1;
    'narrow: while least < most {
        let middle = (least + most) / 2;
        let prefix = front_of(plan, branch, middle);
        if is_shut(plan, vetoes, store, best, &prefix) {
            most = middle;
            continue;
        }
        least = middle + 1;
    }
    Some(front_of(plan, branch, most))
}
