//! The best branch so far.
use uhura_choice::Branch;

/// A branch, and what its best proposal costs.
#[derive(Drop)]
pub(crate) struct Incumbent {
    pub(crate) branch: Branch,
    pub(crate) cost: u128,
}
