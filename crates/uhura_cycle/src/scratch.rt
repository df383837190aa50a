//! The memory of the solver.
ghost use Rattle.std.specs.Prelude.{◌≡◌, ◌≤◌, vec_len, vec_capacity};
ghost use Rattle.uhura_net.specs.declared.edge.TheConstants.{NODES};
ghost use Rattle.uhura_net.specs.declared.place.TheConstants.{PLACES};

use crate::step::Step;
use std::alloc::{AllocError, Global};
use uhura_net::{NODES, PLACES, Place};

/// Room for the edges that are followed, of which only what they need is touched, and for each node its time, the step
/// that lowered it last and where a trace came by it. Only `new` takes memory.
#[derive(Debug, Drop)]
pub struct Scratch {
    pub(crate) steps: Vec<Step>,
    pub(crate) times: Vec<i64>,
    pub(crate) backs: Vec<Option<Step>>,
    pub(crate) visits: Vec<Option<usize>>,
    pub(crate) walk: Vec<Place>,
    ghost step_room: { PLACES ≤ vec_capacity steps },
    ghost time_room: { vec_len times ≡ NODES },
    ghost back_room: { vec_len backs ≡ NODES },
    ghost visit_room: { vec_len visits ≡ NODES },
    ghost walk_room: { vec_len walk ≡ NODES },
}

impl Scratch {
    /// Memory for any number of calls of `settle`.
    pub fn new(alloc: Global) -> Result<Scratch, AllocError> {
        Ok(Scratch {
            steps: Vec::with_capacity(alloc, PLACES)?,
            times: vec![in alloc; 0; NODES]?,
            backs: vec![in alloc; None; NODES]?,
            visits: vec![in alloc; None; NODES]?,
            walk: vec![in alloc; Place(0); NODES]?,
        })
    }
}
