//! At each node a list of places, by the first of each node and the next of each place.
ghost use Rattle.std.specs.Prelude.{◌≡◌, ◌<◌, ◌≤◌, IfOk, IfSome};
ghost use Rattle.uhura_net.specs.Circulation.{edges_of};
ghost use Rattle.uhura_net.specs.Net.{AreNetEdges};
ghost use Rattle.uhura_net.specs.Lists.{first_of, next_of, node_of, number_of, IsListing, IsListedAt, AreListed, AreListedBut, IsLinked, IsUnlisted};

use crate::sparse::SparseEdges;
use crate::{End, NODES, PLACES, Place};
use std::alloc::{AllocError, Global};
use std::marker::Model;

/// What stands for a place behind the last one of a list.
const NO_PLACE: u32 = PLACES as u32;

/// What stands for the node of a place that isn't listed.
const NO_NODE: u32 = NODES as u32;

/// For one end of the edges a list of places at each node: each place with an edge is listed at the node where its
/// edge has that end. A place whose edge was taken out stays listed. Only `new` takes memory.
#[derive(Debug, Drop)]
pub struct Lists {
    firsts: Vec<u32>,
    nexts: Vec<u32>,
    nodes: Vec<u32>,
    count: usize,
}

impl Model for Lists {
    ghost use Rattle.uhura_net.specs.Lists.{Listing, IsListing};

    ghost Value = { Listing };

    ghost view = { λ lists. record {
      firsts = lists.firsts.items;
      nexts = lists.nexts.items;
      nodes = lists.nodes.items;
      count = lists.count;
    } };

    ghost invariant = { λ lists. IsListing (record {
      firsts = lists.firsts.items;
      nexts = lists.nexts.items;
      nodes = lists.nodes.items;
      count = lists.count;
    }) };
}

impl Lists {
    /// Lists without a place.
    pub(crate) fn new(alloc: Global) -> Result<Lists, AllocError>
        ensures { IfOk result IsUnlisted }
    {
        Ok(Lists {
            firsts: vec![in alloc; NO_PLACE; NODES]?,
            nexts: vec![in alloc; NO_PLACE; PLACES]?,
            nodes: vec![in alloc; NO_NODE; PLACES]?,
            count: 0,
        })
    }

    /// The first place at a node.
    pub fn first(&self, node: u32) -> Option<Place>
        requires { node < NODES }
        ensures first { number_of result ≡ first_of self.now node }
        ensures inside { IfSome result (λ place. place.0 < PLACES) }
    {
        some_place(self.firsts[node as usize])
    }

    /// The place behind another one.
    pub fn next(&self, place: Place) -> Option<Place>
        requires { place.0 < PLACES }
        ensures next { number_of result ≡ next_of self.now place.0 }
        ensures inside { IfSome result (λ place. place.0 < PLACES) }
    {
        some_place(self.nexts[place.0 as usize])
    }

    /// Lists a place where its edge has the end, if it has an edge. The places are all listed anew where it stood at
    /// another node.
    pub(crate) fn list(&mut self, edges: &SparseEdges, end: End, place: Place)
        requires place { place.0 < PLACES }
        requires edges { AreNetEdges edges.now }
        requires others { AreListedBut place.0 (edges_of edges.now) end self.old }
        ensures { AreListed (edges_of edges.now) end self.new }
    {
        if let Some(edge) = edges.get(place) {
            let node = edge.node(end);
            let stands = self.nodes[place.0 as usize];
            if stands == node {
                return;
            }
            if stands == NO_NODE && self.count < PLACES {
                self.link(place, node);
            } else {
                self.list_all(edges, end);
            }
        }
    }

    /// Lists each place that has an edge, and no other.
    fn list_all(&mut self, edges: &SparseEdges, end: End)
        requires edges { AreNetEdges edges.now }
        ensures { AreListed (edges_of edges.now) end self.new }
    {
        self.clear();
        for number in 0..PLACES as u32 {
            let place = Place(number);
            if let Some(edge) = edges.get(place) {
                self.link(place, edge.node(end));
            }
        }
    }

    /// Takes all places out of the lists.
    fn clear(&mut self)
        ensures { IsUnlisted self.new }
    {
        self.firsts.fill(NO_PLACE);
        self.nodes.fill(NO_NODE);
        self.count = 0;
    }

    /// Lists a place that isn't listed, in front of the others at its node.
    fn link(&mut self, place: Place, node: u32)
        requires place { place.0 < PLACES }
        requires node { node < NODES }
        requires free { node_of self.old place.0 ≡ NODES }
        requires room { self.old.count < PLACES }
        ensures linked { IsLinked self.old self.new place.0 node }
        ensures listing { IsListing self.new }
    {
        let at = place.0 as usize;
        self.nexts[at] = self.firsts[node as usize];
        self.firsts[node as usize] = place.0;
        self.nodes[at] = node;
        self.count += 1;
    }
}

/// The place of a number, or none behind the last one.
fn some_place(number: u32) -> Option<Place>
    requires { number ≤ PLACES }
    ensures number { number_of result ≡ number }
    ensures inside { IfSome result (λ place. place.0 < PLACES) }
{
    if number == NO_PLACE {
        None
    } else {
        Some(Place(number))
    }
}
