//! What each node is due: the units that come in less those that go out.
ghost use Rattle.std.specs.Prelude.{◌≡◌, ◌<◌, ◌≤◌, ◌+◌, ◌*◌, ◌+ℤ◌, ◌-ℤ◌, ℕ, pos, All, length, slice_set};
ghost use Rattle.std.specs.Bool.{Decides};
ghost use Rattle.uhura_net.specs.declared.edge.TheConstants.{NODES};
ghost use Rattle.uhura_check.specs.Edges.{edge_in, IsWithin, IsSmallEdge, AreFew, most_edges, greatest_units};
ghost use Rattle.uhura_check.specs.Ledger.{due_at, brought, IsClear, IsLedgerOf, IsEven};

use crate::edges::edge_in;
use uhura_net::{Edge, EdgeTable};
use uhura_plan::EdgeKey;

/// A node is due so many units more.
fn add(due: &mut [i128], node: u32, units: u64)
    requires inside { node < length due.old }
    requires due { IsWithin ((most_edges + 1) * greatest_units) (due_at due.old node) }
    ensures { due.new ≡ slice_set due.old node (due_at due.old node +ℤ pos units) }
{
    due[node as usize] += i128::from(units);
}

/// A node is due so many units less.
fn take(due: &mut [i128], node: u32, units: u64)
    requires inside { node < length due.old }
    requires due { IsWithin ((most_edges + 1) * greatest_units) (due_at due.old node) }
    ensures { due.new ≡ slice_set due.old node (due_at due.old node -ℤ pos units) }
{
    due[node as usize] -= i128::from(units);
}

/// Units go along an edge: the node at its end is due more, and that at its start less.
fn enter(due: &mut [i128], edge: Edge, units: u64)
    requires nodes { length due.old ≡ NODES }
    requires edge { IsSmallEdge edge }
    requires due { (node : ℕ) → node < NODES →
        IsWithin (most_edges * greatest_units) (due_at due.old node) }
    ensures due { (node : ℕ) → node < NODES →
        due_at due.new node ≡ due_at due.old node +ℤ brought edge units node }
    ensures fits { units ≤ greatest_units }
{
    add(due, edge.to, units);
    take(due, edge.from, units);
}

/// All units go along their edges, where no node is due anything before. There are at most 16,128 edges, with less
/// than 2^64 units on each, so that what a node is due is far within an `i128`.
pub(crate) fn enter_all(due: &mut [i128], table: &EdgeTable, pairs: &[(EdgeKey, u64)])
    requires nodes { length due.old ≡ NODES }
    requires clear { IsClear due.old }
    requires pairs { AreFew pairs.now }
    ensures due { IsLedgerOf table.now pairs.now due.new }
    ensures small { All (λ pair. IsSmallEdge (edge_in table.now pair.0)) pairs.now }
{
    for place in 0..pairs.len() {
        let (key, units) = pairs[place];
        enter(due, edge_in(table, key), units);
    }
}

/// Whether no end of any of the edges is due anything.
pub(crate) fn are_even(due: &[i128], table: &EdgeTable, pairs: &[(EdgeKey, u64)]) -> bool
    requires nodes { length due.now ≡ NODES }
    requires pairs { AreFew pairs.now }
    ensures { Decides result (All (IsEven table.now due.now) pairs.now) }
{
    for place in 0..pairs.len() {
        if !is_even(due, edge_in(table, pairs[place].0)) {
            return false;
        }
    }
    true
}

/// Whether neither end of the edge is due anything.
fn is_even(due: &[i128], edge: Edge) -> bool
    requires nodes { length due.now ≡ NODES }
    requires edge { IsSmallEdge edge }
    ensures { Decides result
        ((due_at due.now edge.to ≡ pos 0) × (due_at due.now edge.from ≡ pos 0)) }
{
    due[edge.to as usize] == 0 && due[edge.from as usize] == 0
}

/// Makes no node be due anything, where none is but the ends of these edges.
pub(crate) fn clear(due: &mut [i128], table: &EdgeTable, pairs: &[(EdgeKey, u64)])
    requires nodes { length due.old ≡ NODES }
    requires pairs { AreFew pairs.now }
    requires ledger { IsLedgerOf table.now pairs.now due.old }
    ensures { IsClear due.new }
{
    for place in 0..pairs.len() {
        let edge = edge_in(table, pairs[place].0);
        due[edge.to as usize] = 0;
        due[edge.from as usize] = 0;
    }
}
