//! The memory of a flow's work.
use crate::round::Round;
use std::alloc::{AllocError, Global};
use uhura_path::PathScratch;

/// Room for searches and cycles. Only `new` takes memory.
#[derive(Debug, Drop)]
pub(crate) struct Room {
    pub(crate) scratch: PathScratch,
    pub(crate) round: Round,
}

impl Room {
    /// Room for any number of changes.
    pub(crate) fn new(alloc: Global) -> Result<Room, AllocError> {
        Ok(Room {
            scratch: PathScratch::new(alloc)?,
            round: Round::new(alloc)?,
        })
    }
}
