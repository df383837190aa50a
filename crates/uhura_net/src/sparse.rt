//! Edges at places, of which few have one.
ghost use Rattle.std.specs.Prelude.{◌≡◌, ◌<◌, None, IfOk, replicate, slice_index_or, slice_set};

use crate::{Edge, PLACES, Place};
use std::alloc::{AllocError, Global};
use std::marker::Model;

/// An edge, or none, at each place. A place gets a cell with its first edge and keeps it; cell 0 stays empty, for all
/// places that have had none. There is room for a cell of each place, and what isn't used of it is never touched, so
/// that few edges need little memory. Only `new` takes memory.
#[derive(Debug, Drop)]
pub struct SparseEdges {
    numbers: Vec<u16>,
    cells: Vec<Option<Edge>>,
}

impl Model for SparseEdges {
    ghost use Rattle.std.specs.Prelude.{List, Option, ◌+◌, ◌≤◌, vec_capacity};
    ghost use Rattle.uhura_net.specs.declared.edge.Edge.{Edge};
    ghost use Rattle.uhura_net.specs.declared.place.TheConstants.{PLACES};
    ghost use Rattle.uhura_net.specs.Sparse.{edges_in, IsSparse};

    ghost Value = { List (Option Edge) };

    ghost view = { λ edges. edges_in edges.numbers.items edges.cells.items };

    ghost invariant = { λ edges. IsSparse edges.numbers.items edges.cells.items
        × (PLACES + 1 ≤ vec_capacity edges.cells) };
}

impl SparseEdges {
    /// No edge at any place.
    pub(crate) fn new(alloc: Global) -> Result<SparseEdges, AllocError>
        ensures { IfOk result (λ edges. edges ≡ replicate PLACES None) }
    {
        let numbers = vec![in alloc; 0; PLACES]?;
        let mut cells = Vec::with_capacity(alloc, PLACES + 1)?;
        cells.push_reserved(None);
        Ok(SparseEdges { numbers, cells })
    }

    /// The edge at a place.
    pub(crate) fn get(&self, place: Place) -> Option<Edge>
        requires { place.0 < PLACES }
        ensures { result ≡ slice_index_or self.now place.0 None }
    {
        self.cells[self.numbers[place.0 as usize] as usize]
    }

    /// Puts an edge, or none, at a place. All other places stay.
    pub(crate) fn put(&mut self, place: Place, edge: Option<Edge>)
        requires { place.0 < PLACES }
        ensures { self.new ≡ slice_set self.old place.0 edge }
    {
        let number = self.numbers[place.0 as usize];
        if number != 0 {
            self.cells[number as usize] = edge;
        } else if edge.is_some() {
            self.numbers[place.0 as usize] = self.cells.len() as u16;
            self.cells.push_reserved(edge);
        }
    }
}
