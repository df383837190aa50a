//! What a question is answered.

use crate::LeafNote;
use uhura_choice::Branch;

/// The first cheapest branch with what its best proposal costs, potentials that this proposal is read off, and leaves
/// that show that no branch has a better one; or leaves that show that no branch has any.
#[derive(Drop)]
pub enum Outcome {
    Found {
        branch: Branch,
        cost: u128,
        potentials: Vec<i64>,
        leaves: Vec<LeafNote>,
    },
    None {
        leaves: Vec<LeafNote>,
    },
}
