//! Branches: one pick for each choice, in the order of the choices. What a branch is, which of two is earlier, and
//! what is active in it stand in `specs/Branch.antt`. `laws` says that the children of prefixes, and the walk from
//! branch to branch, miss none. No call takes memory.
#![tactic(auto)]

mod cost;
mod extension;
mod guarded;
pub mod laws;
mod order;
mod prefix;
mod walk;

pub use cost::picked_cost;
pub use extension::{child, children};
pub use guarded::{active, holds};
pub use order::compare;
pub use prefix::{Branch, Pick, Prefix};
pub use walk::{first_branch, next_branch};
