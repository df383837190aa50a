//! The memory of searches.
use crate::Label;
use std::alloc::{AllocError, Global};
use std::marker::Model;
use uhura_net::{NODES, Place};

/// Room for a label for each node, for the nodes in the order in which they are reached, for a path and for all
/// distances. Only `new` takes memory.
#[derive(Debug, Drop)]
pub struct PathScratch {
    pub(crate) mark: u32,
    pub(crate) labels: Vec<Label>,
    pub(crate) order: Vec<u32>,
    pub(crate) places: Vec<Place>,
    pub(crate) backward: Vec<bool>,
    pub(crate) distances: Vec<Option<i64>>,
}

impl Model for PathScratch {
    ghost use Rattle.std.specs.Prelude.{ℕ};
    ghost use Rattle.uhura_path.specs.Scratch.{IsScratch};

    ghost Value = { ℕ };

    ghost view = { λ scratch. scratch.mark };

    ghost invariant = { λ scratch. IsScratch scratch.mark scratch.labels.items scratch.order.items
        scratch.places.items scratch.backward.items scratch.distances.items };
}

impl PathScratch {
    /// Memory for any number of searches.
    pub fn new(alloc: Global) -> Result<PathScratch, AllocError> {
        Ok(PathScratch {
            mark: 0,
            labels: vec![in alloc; Label::NONE; NODES]?,
            order: vec![in alloc; 0; NODES]?,
            places: vec![in alloc; Place(0); NODES]?,
            backward: vec![in alloc; false; NODES]?,
            distances: vec![in alloc; None; NODES]?,
        })
    }
}
