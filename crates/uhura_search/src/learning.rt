//! What is kept to learn from: one flow that is moved from branch to branch, and what was learned.
ghost use Rattle.std.specs.Prelude.{◌≡◌, [], None, IfOk, replicate};
ghost use Rattle.uhura_net.specs.declared.place.TheConstants.{PLACES};
ghost use Rattle.uhura_flow.specs.Flow.{empty_flow};
ghost use Rattle.uhura_conflict.specs.Store.{empty_store};

use crate::places::Places;
use std::alloc::{AllocError, Global};
use uhura_choice::Prefix;
use uhura_conflict::Store;
use uhura_flow::Flow;
use uhura_net::EdgeTable;

/// A flow over some edges of a table, what was learned of the table, the places that have an edge in it, and how many
/// conflicts were added so far. The changed places are room for those of an edit. Two prefixes are hints alone: the
/// first picks to which the flow was moved last on the way to a branch, and the branch that was answered last.
#[derive(Drop)]
pub(crate) struct Learning {
    pub(crate) flow: Flow,
    pub(crate) table: EdgeTable,
    pub(crate) store: Store,
    pub(crate) places: Places,
    pub(crate) changed: Places,
    pub(crate) added: u64,
    pub(crate) stands: Prefix,
    pub(crate) last: Prefix,
}

impl Learning {
    /// Nothing is known of an empty table.
    pub(crate) fn new(alloc: Global) -> Result<Learning, AllocError>
        ensures flow { IfOk result (λ learning. learning.flow ≡ empty_flow) }
        ensures table { IfOk result (λ learning. learning.table ≡ replicate PLACES None) }
        ensures store { IfOk result (λ learning. learning.store ≡ empty_store) }
        ensures places { IfOk result (λ learning. learning.places ≡ []) }
        ensures added { IfOk result (λ learning. learning.added ≡ 0) }
    {
        Ok(Learning {
            flow: Flow::new(alloc)?,
            table: EdgeTable::new(alloc)?,
            store: Store::new(alloc)?,
            places: Places::new(alloc)?,
            changed: Places::new(alloc)?,
            added: 0,
            stands: Prefix::empty(),
            last: Prefix::empty(),
        })
    }
}
