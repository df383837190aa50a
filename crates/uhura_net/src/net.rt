//! Edges with a circulation on them.
ghost use Rattle.std.specs.Prelude.{◌≡◌, ◌+◌, ◌-◌, ◌^◌, ◌<◌, min, pos, ◌+ℤ◌, ◌*ℤ◌, IfOk, IfSome, slice_set};
ghost use Rattle.uhura_net.specs.Walk.{bounds_of};
ghost use Rattle.uhura_net.specs.Circulation.{edges_of, units_of};
ghost use Rattle.uhura_net.specs.Residual.{IsPushed};
ghost use Rattle.uhura_net.specs.Net.{IsNetEdge, IsNet, MayBeSet, net_value, empty_net, net_walk, IsNetCycle};
ghost use Rattle.uhura_net.specs.Lists.{AreListed};
ghost use Rattle.uhura_net.specs.declared.edge.End.TheVariants.{From, To};

use crate::lists::Lists;
use crate::moving::{bounds_along, move_units};
use crate::sparse::SparseEdges;
use crate::worth::{change_value, push_value};
use crate::{Edge, End, PLACES, Place};
use std::alloc::{AllocError, Global};
use std::marker::Model;

/// Edges at their places, and the units that each of them carries, which are a circulation: at each node as many
/// enter as leave, and no edge carries more than its capacity. At each node it keeps the lists of places whose edge
/// leaves it and enters it. Only `new` takes memory.
#[derive(Debug, Drop)]
pub struct Net {
    edges: SparseEdges,
    units: Vec<u64>,
    pushes: u64,
    value: i128,
    leaving: Lists,
    entering: Lists,
}

impl Model for Net {
    ghost use Rattle.uhura_net.specs.Net.{NetState, IsKeptNet};

    ghost Value = { NetState };

    ghost view = { λ net.
        record { edges = net.edges; units = net.units.items; pushes = net.pushes } };

    ghost invariant = { λ net. IsKeptNet
        (record { edges = net.edges; units = net.units.items; pushes = net.pushes })
        net.value net.leaving net.entering };
}

impl Net {
    /// A net without an edge.
    pub fn new(alloc: Global) -> Result<Net, AllocError>
        ensures net { IfOk result (λ net. net ≡ empty_net) }
        ensures sound { IfOk result IsNet }
    {
        Ok(Net {
            edges: SparseEdges::new(alloc)?,
            units: vec![in alloc; 0; PLACES]?,
            pushes: 0,
            value: 0,
            leaving: Lists::new(alloc)?,
            entering: Lists::new(alloc)?,
        })
    }

    /// Puts an edge, or none, at a place. All units stay, and all other edges. An edge may come and go where there
    /// are no units; where there are some, the new edge has the same nodes and a capacity for them.
    pub fn set(&mut self, place: Place, edge: Option<Edge>)
        requires place { place.0 < PLACES }
        requires edge { IfSome edge IsNetEdge }
        requires units { MayBeSet self.old place.0 edge }
        ensures net { self.new ≡ record self.old { edges = slice_set self.old.edges place.0 edge } }
        ensures sound { IsNet self.new }
    {
        let units = self.units[place.0 as usize];
        self.value = change_value(self.value, self.edges.get(place), edge, units);
        self.edges.put(place, edge);
        self.leaving.list(&self.edges, End::From, place);
        self.entering.list(&self.edges, End::To, place);
    }

    /// The edge at a place.
    pub fn edge(&self, place: Place) -> Option<Edge>
        requires { place.0 < PLACES }
        ensures edge { result ≡ edges_of self.now.edges place.0 }
        ensures there { IfSome result IsNetEdge }
        ensures sound { IsNet self.now }
    {
        self.edges.get(place)
    }

    /// How many units the edge at a place carries.
    pub fn units(&self, place: Place) -> u64
        requires { place.0 < PLACES }
        ensures units { result ≡ units_of self.now.units place.0 }
        ensures sound { IsNet self.now }
    {
        self.units[place.0 as usize]
    }

    /// At each node the list of places whose edge leaves it.
    pub fn leaving(&self) -> &Lists
        ensures { AreListed (edges_of self.now.edges) From result.now }
    {
        &self.leaving
    }

    /// At each node the list of places whose edge enters it.
    pub fn entering(&self) -> &Lists
        ensures { AreListed (edges_of self.now.edges) To result.now }
    {
        &self.entering
    }

    /// Moves units around a residual cycle: each place that is walked forward gets them, and they are taken from each
    /// that is walked backward. The value falls by the units times the bounds along the walk.
    pub fn push(&mut self, places: &[Place], backward: &[bool], units: u64)
        requires { IsNetCycle self.old places.now backward.now units }
        ensures edges { self.new.edges ≡ self.old.edges }
        ensures units { IsPushed places.now backward.now units
            (units_of self.old.units) (units_of self.new.units) }
        ensures pushes { self.new.pushes ≡ min (self.old.pushes + 1) (2 ^ 64 - 1) }
        ensures sound { IsNet self.new }
        ensures value { net_value self.new +ℤ
            (pos units *ℤ bounds_of (net_walk self.old places.now backward.now)) ≡
            net_value self.old }
    {
        let bounds = bounds_along(&self.edges, places, backward);
        move_units(&mut self.units, places, backward, units);
        self.value = push_value(self.value, units, bounds);
        self.pushes = self.pushes.saturating_add(1);
    }

    /// The value of the circulation: minus the sum of bound times units.
    pub fn value(&self) -> i128
        ensures value { result ≡ net_value self.now }
        ensures sound { IsNet self.now }
    {
        self.value
    }

    /// How many pushes there were. It stands still at the end of its type.
    pub fn pushes(&self) -> u64
        ensures { result ≡ self.now.pushes }
    {
        self.pushes
    }
}
