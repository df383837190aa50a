//! The memory of the search.
ghost use Rattle.std.specs.Prelude.{◌≡◌, true, replicate};
ghost use Rattle.uhura_net.specs.declared.place.TheConstants.{PLACES};

use std::alloc::{AllocError, Global};
use uhura_cycle::Scratch;
use uhura_net::{EdgeTable, PLACES};

/// Room for the search for earliest schedules: a table of edges, flags that choose each place of it, and what the
/// solver needs. Only `new` takes memory.
#[derive(Drop)]
pub struct RelaxScratch {
    pub(crate) table: EdgeTable,
    pub(crate) chosen: Vec<bool>,
    pub(crate) solver: Scratch,
    ghost all_chosen: { chosen.items ≡ replicate PLACES true },
}

impl RelaxScratch {
    /// Memory for any number of calls of `earliest_in`.
    pub fn new(alloc: Global) -> Result<RelaxScratch, AllocError> {
        Ok(RelaxScratch {
            table: EdgeTable::new(alloc)?,
            chosen: vec![in alloc; true; PLACES]?,
            solver: Scratch::new(alloc)?,
        })
    }
}
