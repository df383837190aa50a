//! Whether edges may carry their units.
ghost use Rattle.std.specs.Prelude.{ℕ, All, MatchOption};
ghost use Rattle.std.specs.Bool.{Decides};
ghost use Rattle.uhura_net.specs.Place.{HasPlace};
ghost use Rattle.uhura_veto.specs.State.{State};
ghost use Rattle.uhura_worst.specs.Filled.{IsTableOf};
ghost use Rattle.uhura_shows.specs.Carried.{IsCarried};
ghost use Rattle.uhura_check.specs.Conditions.{MayCarry};
ghost use Rattle.uhura_check.specs.Edges.{AreFew};
ghost use Rattle.uhura_check.specs.Firsts.{IsFirstNot};
ghost use Rattle.uhura_check.specs.Reaches.{IsSettledIn};

use crate::active::is_active_edge;
use crate::edges::{edge_in, has_edge};
use uhura_choice::Prefix;
use uhura_command::State;
use uhura_net::EdgeTable;
use uhura_plan::EdgeKey;

/// Whether the edge is there, and carries no more than its capacity.
fn is_carried(table: &EdgeTable, key: EdgeKey, units: u64) -> bool
    requires { HasPlace key }
    ensures { (state : State) → IsTableOf state table.now →
        Decides result (IsCarried state (key, units)) }
{
    has_edge(table, key) && units <= edge_in(table, key).capacity
}

/// The place of the first edge that isn't there or carries more than its capacity, where there is one.
pub(crate) fn first_uncarried(table: &EdgeTable, pairs: &[(EdgeKey, u64)]) -> Option<usize>
    requires { AreFew pairs.now }
    ensures { (state : State) → IsTableOf state table.now →
        MatchOption result (All (IsCarried state) pairs.now)
        (IsFirstNot (IsCarried state) pairs.now) }
{
    for place in 0..pairs.len() {
        let (key, units) = pairs[place];
        if !is_carried(table, key, units) {
            return Some(place);
        }
    }
    None
}

/// The place of the first edge that isn't settled active in the prefix, where there is one.
fn first_inactive(state: &State, prefix: &Prefix, pairs: &[(EdgeKey, u64)]) -> Option<usize>
    ensures { MatchOption result (All (IsSettledIn state.now prefix.now) pairs.now)
        (IsFirstNot (IsSettledIn state.now prefix.now) pairs.now) }
{
    for place in 0..pairs.len() {
        if !is_active_edge(&state.plan, prefix, pairs[place].0) {
            return Some(place);
        }
    }
    None
}

/// The place of the first edge that may not carry its units in the prefix, where there is one. The first that isn't
/// there or carries more than its capacity is known.
pub(crate) fn first_not_carried(
    state: &State,
    prefix: &Prefix,
    pairs: &[(EdgeKey, u64)],
    uncarried: Option<usize>,
) -> Option<usize>
    requires { MatchOption uncarried (All (IsCarried state.now) pairs.now)
        (IsFirstNot (IsCarried state.now) pairs.now) }
    ensures { MatchOption result (All (MayCarry state.now prefix.now) pairs.now)
        (IsFirstNot (MayCarry state.now prefix.now) pairs.now) }
{
    match (first_inactive(state, prefix, pairs), uncarried) {
        (Some(inactive), Some(uncarried)) => Some(inactive.min(uncarried)),
        (Some(inactive), None) => Some(inactive),
        (None, Some(uncarried)) => Some(uncarried),
        (None, None) => None,
    }
}
