//! A circulation of greatest value, kept under edits of its edges.
ghost use Rattle.std.specs.Prelude.{◌≡◌, ◌<◌, ◌≤◌, pos, negsuc, ◌≤ℤ◌, true, None, Some, IsSome, IfOk, IfSome};
ghost use Rattle.uhura_plan.specs.Limits.{IsUnitPrice};
ghost use Rattle.uhura_net.specs.declared.edge.Edge.{Edge};
ghost use Rattle.uhura_net.specs.Place.{is_loose};
ghost use Rattle.uhura_net.specs.Net.{net_value};
ghost use Rattle.uhura_flow.specs.Flow.{flow_edges, flow_units, IsFlowEdge, IsFlow, empty_flow};
ghost use Rattle.uhura_flow.specs.Loops.{IsBoundOf};
ghost use Rattle.uhura_flow.specs.Changes.{rebounded, repriced, IsChanged, IsSettled};
ghost use Rattle.uhura_flow.specs.Reading.{IsReading};
ghost use Rattle.uhura_flow.specs.Told.{IsTold};

use crate::Settled;
use crate::placing::{put_in, rebind, repay, take_out};
use crate::potentials::Potentials;
use crate::room::Room;
use crate::stuck::find_stuck;
use std::alloc::{AllocError, Global};
use std::marker::Model;
use uhura_net::{Edge, NODES, Net, PLACES, Place};

/// Edges at their places with a circulation and potentials, which show each other optimal after each call. A change
/// sends units along shortest paths through its own place until that holds again, after the method of R. G. Busacker
/// and P. J. Gowen, A procedure for determining a family of minimum-cost network flow patterns (1961): with at most
/// one push for each unit by which the place's own units change. Only `new` takes memory.
#[derive(Debug, Drop)]
pub struct Flow {
    net: Net,
    potentials: Potentials,
    room: Room,
    cycle: Vec<Place>,
    steps: usize,
    settles: u64,
}

impl Model for Flow {
    ghost use Rattle.std.specs.Prelude.{take, vec_len};
    ghost use Rattle.uhura_flow.specs.Flow.{FlowState, IsKeptFlow};

    ghost Value = { FlowState };

    ghost view = { λ flow. record {
      net = flow.net;
      potentials = flow.potentials;
      settles = flow.settles;
      cycle = take flow.steps flow.cycle.items;
    } };

    ghost invariant = { λ flow.
        IsKeptFlow flow.net flow.potentials (vec_len flow.cycle) flow.steps };
}

impl Flow {
    /// A flow without an edge.
    pub fn new(alloc: Global) -> Result<Flow, AllocError>
        ensures flow { IfOk result (λ flow. flow ≡ empty_flow) }
        ensures sound { IfOk result IsFlow }
    {
        Ok(Flow {
            net: Net::new(alloc)?,
            potentials: Potentials::new(alloc)?,
            room: Room::new(alloc)?,
            cycle: vec![in alloc; Place(0); NODES + 1]?,
            steps: 0,
            settles: 0,
        })
    }

    /// Puts an edge at an empty place, unless the edges that aren't loose have a closed walk with it whose bounds sum
    /// below 0.
    pub fn insert(&mut self, place: Place, edge: Edge) -> Settled
        requires place { place.0 < PLACES }
        requires empty { flow_edges self.old place.0 ≡ None }
        requires edge { IsFlowEdge place.0 edge }
        ensures { IsSettled self.old self.new place.0 edge result }
    {
        if self.is_stuck(place, edge) {
            return Settled::Stuck;
        }
        put_in(
            &mut self.net,
            &mut self.potentials,
            &mut self.room,
            place,
            edge,
        );
        Settled::Optimal
    }

    /// Takes the edge out of a place.
    pub fn remove(&mut self, place: Place)
        requires place { place.0 < PLACES }
        requires there { IsSome (flow_edges self.old place.0) }
        ensures { IsChanged self.old self.new place.0 None }
    {
        if let Some(edge) = self.net.edge(place) {
            take_out(
                &mut self.net,
                &mut self.potentials,
                &mut self.room,
                place,
                edge,
            );
        }
    }

    /// Gives the edge at a place another bound, unless the edges that aren't loose have a closed walk then whose
    /// bounds sum below 0.
    pub fn rebound(&mut self, place: Place, bound: i64) -> Settled
        requires place { place.0 < PLACES }
        requires there { IsSome (flow_edges self.old place.0) }
        requires bound { IsBoundOf bound }
        ensures { IsSettled self.old self.new place.0 (rebounded self.old place.0 bound) result }
    {
        let Some(old) = self.net.edge(place) else {
            return Settled::Optimal;
        };
        let edge = Edge { bound, ..old };
        if self.is_stuck(place, edge) {
            return Settled::Stuck;
        }
        rebind(
            &mut self.net,
            &mut self.potentials,
            &mut self.room,
            place,
            old,
            edge,
        );
        Settled::Optimal
    }

    /// Gives the loose edge at a place another capacity.
    pub fn reprice(&mut self, place: Place, capacity: u64)
        requires place { place.0 < PLACES }
        requires there { IsSome (flow_edges self.old place.0) }
        requires loose { is_loose place.0 ≡ true }
        requires price { IsUnitPrice capacity }
        ensures { IsChanged self.old self.new place.0 (Some (repriced self.old place.0 capacity)) }
    {
        if let Some(old) = self.net.edge(place) {
            repay(
                &mut self.net,
                &mut self.potentials,
                &mut self.room,
                place,
                old,
                Edge { capacity, ..old },
            );
        }
    }

    /// The places of the closed walk that was found when a change was last told to be stuck, in order, with the
    /// changed place among them. It is empty before the first time.
    pub fn stuck_cycle(&self) -> &[Place]
        ensures { result.now ≡ self.now.cycle }
    {
        &self.cycle[..self.steps]
    }

    /// The value, and potentials that show what it is paid by: they are brought into their range, and `potentials`
    /// lends them. It is counted as a settle.
    pub fn reading(&mut self) -> i128
        ensures { IsReading self.old self.new result }
    {
        self.potentials.bring_down(&self.net);
        self.settles = self.settles.saturating_add(1);
        self.net.value()
    }

    /// One potential for each node. They keep each edge that isn't loose.
    pub fn potentials(&self) -> &[i64]
        ensures potentials { result.now ≡ self.now.potentials }
        ensures sound { IsFlow self.now }
    {
        self.potentials.values()
    }

    /// The value, which is kept. It is no settle.
    pub fn value(&self) -> i128
        ensures value { result ≡ net_value self.now.net }
        ensures sound { IsFlow self.now }
    {
        let _settles = self.settles;
        self.net.value()
    }

    /// The edge at a place.
    pub fn edge(&self, place: Place) -> Option<Edge>
        requires { place.0 < PLACES }
        ensures edge { result ≡ flow_edges self.now place.0 }
        ensures there { IfSome result (IsFlowEdge place.0) }
        ensures sound { IsFlow self.now }
    {
        self.net.edge(place)
    }

    /// How many units the edge at a place carries.
    pub fn units(&self, place: Place) -> u64
        requires { place.0 < PLACES }
        ensures units { result ≡ flow_units self.now place.0 }
        ensures sound { IsFlow self.now }
    {
        self.net.units(place)
    }

    /// How often units were pushed. It stands still at the end of its type.
    pub fn pushes(&self) -> u64
        ensures { result ≡ self.now.net.pushes }
    {
        self.net.pushes()
    }

    /// How often the flow was read or found stuck. It stands still at the end of its type.
    pub fn settles(&self) -> u64
        ensures { result ≡ self.now.settles }
    {
        self.settles
    }

    /// Whether an edge that is to stand at a place closes a walk of edges that aren't loose whose bounds sum below 0.
    /// If so, it is kept and counted.
    fn is_stuck(&mut self, place: Place, edge: Edge) -> bool
        requires place { place.0 < PLACES }
        requires edge { IsFlowEdge place.0 edge }
        requires alike { (other : Edge) → flow_edges self.old place.0 ≡ Some other →
            other.from ≡ edge.from }
        ensures { IsTold self.old self.new place.0 edge result }
    {
        let found = find_stuck(
            &self.net,
            &mut self.potentials,
            &mut self.room,
            place,
            edge,
            &mut self.cycle,
        );
        match found {
            Some(steps) => {
                self.steps = steps;
                self.settles = self.settles.saturating_add(1);
                true
            }
            None => false,
        }
    }
}
