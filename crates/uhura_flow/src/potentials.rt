//! The potentials of a flow.
ghost use Rattle.std.specs.Prelude.{◌≡◌, ℕ, ◌*◌, ◌<◌, ℤ, pos, negsuc, ◌-ℤ◌, ◌≤ℤ◌, length, replicate, IfOk};
ghost use Rattle.uhura_net.specs.Edges.{time_at};
ghost use Rattle.uhura_net.specs.Circulation.{edges_of};
ghost use Rattle.uhura_net.specs.Optimal.{slack_of, below_zero, excess_of};
ghost use Rattle.uhura_net.specs.Net.{IsNetEdge};
ghost use Rattle.uhura_flow.specs.Flow.{AreWithin};
ghost use Rattle.uhura_flow.specs.Narrowed.{wide, AreNarrowed, ArePrepared};
ghost use Rattle.uhura_flow.specs.Reading.{touched_nodes};
ghost use Rattle.uhura_flow.specs.Loops.{above_zero};
ghost use Rattle.uhura_path.specs.Ways.{ArePotentials};
ghost use Rattle.uhura_path.specs.Found.{IsReached, IsLifted};

use crate::narrowing::{WIDE, has_edge, narrow};
use std::alloc::{AllocError, Global};
use std::marker::Model;
use uhura_net::{Edge, NODES, Net};
use uhura_path::{Found, MOST_POTENTIAL, NO_CAP, lift};

/// No potential is above this: a search begins with potentials up to `MOST_POTENTIAL`, and raises them by `NO_CAP` at
/// most.
pub(crate) const HIGHEST: u64 = MOST_POTENTIAL + NO_CAP;

/// A potential for each node, from 0 to `HIGHEST`. Only `new` takes memory.
#[derive(Debug, Drop)]
pub(crate) struct Potentials {
    values: Vec<i64>,
    /// None is above this one.
    highest: u64,
    /// Room for marks at the nodes.
    touched: Vec<bool>,
}

impl Model for Potentials {
    ghost use Rattle.std.specs.Prelude.{ℤ, List};
    ghost use Rattle.uhura_flow.specs.Potentials.{IsKeptBelow};

    ghost Value = { List ℤ };

    ghost view = { λ potentials. potentials.values.items };

    ghost invariant = { λ potentials. IsKeptBelow potentials.values.items potentials.highest
        potentials.touched.items };
}

impl Potentials {
    /// Potentials that are all 0.
    pub(crate) fn new(alloc: Global) -> Result<Potentials, AllocError>
        ensures { IfOk result (λ potentials. potentials ≡ replicate NODES (pos 0)) }
    {
        Ok(Potentials {
            values: vec![in alloc; 0; NODES]?,
            highest: 0,
            touched: vec![in alloc; false; NODES]?,
        })
    }

    /// One potential for each node.
    pub(crate) fn values(&self) -> &[i64]
        ensures values { result.now ≡ self.now }
        ensures nodes { length self.now ≡ NODES }
        ensures within { AreWithin HIGHEST (time_at self.now) }
    {
        &self.values
    }

    /// How far the potentials of an edge's nodes may still move apart.
    pub(crate) fn slack(&self, edge: Edge) -> i64
        requires { IsNetEdge edge }
        ensures slack { result ≡ slack_of (time_at self.now) edge }
        ensures least { negsuc 1000010001999999999 ≤ℤ result }
        ensures most { result ≤ℤ pos 1000010002000000000 }
    {
        let from = self.values[edge.from as usize];
        let to = self.values[edge.to as usize];
        slack_between(edge.bound, from, to)
    }

    /// By how much the potentials of an edge's nodes pass its bound.
    pub(crate) fn excess(&self, edge: Edge) -> u64
        requires { IsNetEdge edge }
        ensures { result ≡ excess_of (time_at self.now) edge }
    {
        below(self.slack(edge))
    }

    /// How far they may still move apart before they pass it.
    pub(crate) fn spare(&self, edge: Edge) -> u64
        requires { IsNetEdge edge }
        ensures { result ≡ above_zero (slack_of (time_at self.now) edge) }
    {
        above(self.slack(edge))
    }

    /// Raises the potentials by the distances that a search found.
    pub(crate) fn lift(&mut self, found: &Found)
        requires potentials { ArePotentials self.old }
        requires reached { (distance : ℕ → ℕ) × IsReached found.now distance }
        ensures { (distance : ℕ → ℕ) → IsReached found.now distance →
            IsLifted found.now.cost distance (time_at self.old) (time_at self.new) }
    {
        lift(&mut self.values, found);
        self.highest = self.highest.min(MOST_POTENTIAL) + found.cost;
    }

    /// Narrows wide gaps where the potentials are too high for a search.
    pub(crate) fn prepare(&mut self, net: &Net)
        ensures potentials { ArePotentials self.new }
        ensures prepared { ArePrepared (edges_of net.now.edges) self.old self.new }
    {
        if self.highest > MOST_POTENTIAL {
            self.narrow(net);
        }
    }

    /// Narrows wide gaps where the potentials may be higher than a wide gap for each node that an edge touches.
    pub(crate) fn bring_down(&mut self, net: &Net)
        ensures prepared { ArePrepared (edges_of net.now.edges) self.old self.new }
        ensures range { AreWithin (wide * touched_nodes (edges_of net.now.edges))
            (time_at self.new) }
    {
        if self.highest > WIDE as u64 || !has_edge(net) {
            self.narrow(net);
        }
    }

    /// Narrows wide gaps, so that no potential is further from 0 than a wide gap for each node that an edge touches.
    pub(crate) fn narrow(&mut self, net: &Net)
        ensures { AreNarrowed (edges_of net.now.edges) self.old self.new }
    {
        narrow(net, &mut self.values, &mut self.touched);
        self.highest = WIDE as u64 * NODES as u64;
    }
}

/// How far two potentials may still move apart under a bound.
fn slack_between(bound: i64, from: i64, to: i64) -> i64
    requires least { negsuc 1999999999 ≤ℤ bound }
    requires most { bound ≤ℤ pos 2000000000 }
    requires from { (pos 0 ≤ℤ from) × (from ≤ℤ pos HIGHEST) }
    requires to { (pos 0 ≤ℤ to) × (to ≤ℤ pos HIGHEST) }
    ensures { result ≡ bound -ℤ (to -ℤ from) }
{
    bound - (to - from)
}

/// By how much a number is below 0.
fn below(number: i64) -> u64
    ensures { result ≡ below_zero number }
{
    if number < 0 { number.unsigned_abs() } else { 0 }
}

/// By how much a number is above 0.
fn above(number: i64) -> u64
    ensures { result ≡ above_zero number }
{
    if number > 0 { number.unsigned_abs() } else { 0 }
}
