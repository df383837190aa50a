//! Whether edges are those of a walk that shows a clash.
ghost use Rattle.std.specs.Prelude.{◌≡◌, pos, ◌<ℤ◌, All, map};
ghost use Rattle.std.specs.Bool.{Decides};
ghost use Rattle.uhura_net.specs.Place.{HasPlace, is_loose_key};
ghost use Rattle.uhura_net.specs.Walk.{IsClosedWalk, Leads, bounds_of};
ghost use Rattle.uhura_veto.specs.State.{State};
ghost use Rattle.uhura_worst.specs.Filled.{IsTableOf};
ghost use Rattle.uhura_shows.specs.Carried.{IsFirmKey, IsNegativeKeyedWalk};
ghost use Rattle.uhura_check.specs.Edges.{edge_in};

use crate::edges::{edge_in, has_edge};
use uhura_net::EdgeTable;
use uhura_plan::EdgeKey;

/// Whether the edges make a closed walk, are there, none of them loose, and have bounds that sum below 0.
pub(crate) fn is_negative_walk(table: &EdgeTable, keys: &[EdgeKey]) -> bool
    requires { All HasPlace keys.now }
    ensures { (state : State) → IsTableOf state table.now →
        Decides result (IsNegativeKeyedWalk state keys.now) }
{
    if !are_firm(table, keys) {
        return false;
    }
    if !is_closed(table, keys) {
        return false;
    }
    is_below_0(bounds_along(table, keys))
}

/// Whether each edge is there, and isn't loose.
fn are_firm(table: &EdgeTable, keys: &[EdgeKey]) -> bool
    requires { All HasPlace keys.now }
    ensures { (state : State) → IsTableOf state table.now →
        Decides result (All (IsFirmKey state) keys.now) }
{
    for place in 0..keys.len() {
        if !is_firm(table, keys[place]) {
            return false;
        }
    }
    true
}

/// Whether an edge is there, and isn't loose.
fn is_firm(table: &EdgeTable, key: EdgeKey) -> bool
    requires { HasPlace key }
    ensures { (state : State) → IsTableOf state table.now → Decides result (IsFirmKey state key) }
{
    has_edge(table, key) && !is_loose(key)
}

/// Whether units on an edge are paid.
fn is_loose(key: EdgeKey) -> bool
    ensures { result ≡ is_loose_key key }
{
    match key {
        EdgeKey::Loose(_) | EdgeKey::Steep(_) => true,
        EdgeKey::Firm(_) | EdgeKey::Order(_) => false,
    }
}

/// Whether each edge ends where the next begins, and the last where the first does.
fn is_closed(table: &EdgeTable, keys: &[EdgeKey]) -> bool
    requires { All HasPlace keys.now }
    ensures { Decides result (IsClosedWalk (map (edge_in table.now) keys.now)) }
{
    match keys {
        [first, rest @ ..] => {
            let edge = edge_in(table, *first);
            leads(table, edge.to, rest, edge.from)
        }
        [] => false,
    }
}

/// Whether the edges lead from one node to another.
fn leads(table: &EdgeTable, from: u32, keys: &[EdgeKey], to: u32) -> bool
    requires { All HasPlace keys.now }
    ensures { Decides result (Leads from (map (edge_in table.now) keys.now) to) }
{
    let mut node = from;
    for place in 0..keys.len() {
        let edge = edge_in(table, keys[place]);
        if edge.from != node {
            return false;
        }
        node = edge.to;
    }
    node == to
}

/// The sum of the bounds.
fn bounds_along(table: &EdgeTable, keys: &[EdgeKey]) -> i128
    requires { All HasPlace keys.now }
    ensures { result ≡ bounds_of (map (edge_in table.now) keys.now) }
{
    let mut sum = 0;
    for place in 0..keys.len() {
        sum += i128::from(edge_in(table, keys[place]).bound);
    }
    sum
}

/// Whether a sum is below 0.
fn is_below_0(sum: i128) -> bool
    ensures { Decides result (sum <ℤ pos 0) }
{
    sum < 0
}
