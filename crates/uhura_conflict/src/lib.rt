//! What was learned of branches, kept and shared. A conflict is a circulation, whose value no branch to which it
//! applies can cost less than, or a closed walk that no times keep (`specs/Learned.antt`); it applies where the
//! literals of its requirements are picked (`specs/Literals.antt`). A store keeps conflicts under keys while its
//! table of edges changes, and finds the best of those that apply (`specs/Store.antt`, `specs/Kept.antt`) by what the
//! conflicts of a block of keys have in common (`specs/Summaries.antt`). `laws` says when a conflict applies, and for
//! which edges it is valid.
#![tactic(auto)]

mod blocks;
mod bound;
mod comparing;
mod conflict;
mod entry;
mod finding;
pub mod laws;
mod literals;
mod looking;
mod revising;
mod sought;
mod store;
mod summaries;
mod summary;
mod trimming;
mod used;
mod worth;

pub use bound::Bound;
pub use conflict::Conflict;
pub use store::Store;
