//! Edges by their places.
ghost use Rattle.std.specs.Prelude.{◌≡◌, ◌<◌, Option, None, IfOk, IfSome, length, replicate, slice_index_or, slice_set};
ghost use Rattle.uhura_net.specs.declared.place.TheConstants.{PLACES};
ghost use Rattle.uhura_net.specs.Table.{IsEdgeFor};

use crate::sparse::SparseEdges;
use crate::{Edge, Place};
use std::alloc::{AllocError, Global};
use std::marker::Model;

/// A table with an edge, or none, at each place. Only `new` takes memory.
#[derive(Debug, Drop)]
pub struct EdgeTable {
    edges: SparseEdges,
}

impl Model for EdgeTable {
    ghost use Rattle.std.specs.Prelude.{List, Option};
    ghost use Rattle.uhura_net.specs.declared.edge.Edge.{Edge};
    ghost use Rattle.uhura_net.specs.Table.{IsTable};

    ghost Value = { List (Option Edge) };

    ghost view = { λ table. table.edges };

    ghost invariant = { λ table. IsTable table.edges };
}

impl EdgeTable {
    /// A table without an edge.
    pub fn new(alloc: Global) -> Result<EdgeTable, AllocError>
        ensures { IfOk result (λ table. table ≡ replicate PLACES None) }
    {
        Ok(EdgeTable {
            edges: SparseEdges::new(alloc)?,
        })
    }

    /// The edge at a place.
    pub fn get(&self, place: Place) -> Option<Edge>
        requires { place.0 < PLACES }
        ensures edge { result ≡ slice_index_or self.now place.0 None }
        ensures sound { IfSome result (IsEdgeFor place.0) }
        ensures places { length self.now ≡ PLACES }
    {
        self.edges.get(place)
    }

    /// Puts an edge, or none, at a place. All other places stay.
    pub fn put(&mut self, place: Place, edge: Option<Edge>)
        requires place { place.0 < PLACES }
        requires edge { IfSome edge (IsEdgeFor place.0) }
        ensures edges { self.new ≡ slice_set self.old place.0 edge }
        ensures places { length self.old ≡ PLACES }
    {
        self.edges.put(place, edge);
    }
}
