//! What a proposal is, when it is allowed, what it costs, and which one is best: `specs/Proposal.antt` to
//! `specs/Best.antt`, tried on worked plans in `examples`; `best` says what best proposals have in common. The edges
//! of the worst case stand in `specs/Edges.antt`, and `worst_case` says what they have to do with proposals.
#![tactic(auto)]

pub mod best;
pub mod constraint;
mod edges;
pub mod examples;
mod filling;
mod loosening;
mod node;
mod tables;
pub mod worst_case;

pub use edges::edge;
pub use filling::{fill, fill_by};
pub use loosening::Loosening;
pub use tables::Tables;
