//! What may be walked.

/// The greatest absolute value of a potential.
pub const MOST_POTENTIAL: u64 = 10_000_000_000_000;

/// The greatest cost of an arc, since no bound passes 2,000,000,000.
pub const MOST_COST: u64 = 2 * MOST_POTENTIAL + 2_000_000_000;

/// What a path may go along: residual edges that can carry a unit or more, or firm edges alone, forward.
#[derive(Clone, Copy, Debug, PartialEq, Eq)]
pub enum Ways {
    Residual,
    Firm,
}

/// An edge that may be walked, from node to node, at a cost, with room for so many units.
#[derive(Clone, Copy, Debug)]
pub struct Arc {
    pub from: u32,
    pub to: u32,
    pub cost: u64,
    pub room: u64,
}
