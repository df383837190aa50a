//! The way of the flow to a branch, pick by pick.
ghost use Rattle.std.specs.Prelude.{IfSome, IsTrue, ◌≡◌, ◌≤◌, length, take};
ghost use Rattle.uhura_choice.specs.Branch.{IsBranch};
ghost use Rattle.uhura_flow.specs.Flow.{flow_edges};
ghost use Rattle.uhura_plan.specs.declared.limits.TheConstants.{CHOICES};
ghost use Rattle.uhura_net.specs.Circulation.{edges_of};
ghost use Rattle.uhura_search.specs.Fronts.{IsStopped};
ghost use Rattle.uhura_search.specs.Moving.{AreAmong, AreListed, HasFlowBounds};
ghost use Rattle.uhura_search.specs.Shut.{IsSmallCost};

use crate::going::go_on;
use crate::incumbent::Incumbent;
use crate::moving::{Moved, move_to};
use crate::shut::is_dear;
use crate::trying::value_of;
use uhura_choice::{Branch, Pick, Prefix};
use uhura_flow::Flow;
use uhura_net::EdgeTable;
use uhura_plan::Plan;
use uhura_shows::front_of;

/// Where the flow stops: it is stuck, or worth enough for the best so far, or neither before it stands at the branch.
#[derive(Clone, Copy, Debug, PartialEq, Eq)]
pub(crate) enum Stop {
    Stuck,
    Dear,
    Open,
}

/// Moves the flow to the first picks of the branch, one more at a time, until it stops. So what is learned there has
/// as few literals as may be. It begins with the picks that the branch shares with those at which the flow stands.
pub(crate) fn step(
    flow: &mut Flow,
    table: &EdgeTable,
    places: &[u32],
    stands: &mut Prefix,
    plan: &Plan,
    best: &Option<Incumbent>,
    branch: &Branch,
) -> Stop
    requires bounds { HasFlowBounds table.now }
    requires listed { AreListed places.now table.now }
    requires present { AreAmong (flow_edges flow.old) (edges_of table.now) }
    requires is_branch { IsBranch plan.now.choices branch.now }
    requires branch { IfSome best.now (λ i. IsBranch plan.now.choices i.branch) }
    requires small { IfSome best.now IsSmallCost }
    ensures { IsStopped flow.old flow.new table.now plan.now best.now branch.now result }
{
    let first = shared(stands, branch);
    *stands = front_of(plan, branch, first);
    match move_to(flow, table, places, plan, stands) {
        Moved::Stuck => return Stop::Stuck,
        Moved::Holds => {}
    }
    for len in first..branch.entries().len() {
        if is_dear(plan, best, branch, value_of(flow)) {
            return Stop::Dear;
        }
        let next = front_of(plan, branch, len + 1);
        let moved = go_on(flow, table, plan, stands, &next);
        *stands = next;
        match moved {
            Moved::Stuck => return Stop::Stuck,
            Moved::Holds => {}
        }
    }
    Stop::Open
}

/// How many first picks are the same.
pub(crate) fn shared(one: &Prefix, other: &Prefix) -> usize
    ensures few { result ≤ length other.now }
    ensures small { result ≤ CHOICES }
    ensures same { take result one.now ≡ take result other.now }
{
    let (one, other) = (one.entries(), other.entries());
    let most = one.len().min(other.len());
    for place in 0..most {
        if !is_same(one[place], other[place]) {
            return place;
        }
    }
    most
}

/// Whether the picks are the same.
fn is_same(one: Pick, other: Pick) -> bool
    ensures { IsTrue result → one ≡ other }
{
    one == other
}
