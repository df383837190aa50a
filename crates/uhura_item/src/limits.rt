//! How great the numbers of a document are.

/// The greatest cost of a proposal.
pub const GREATEST_COST: u128 = 1_000_000_000_000_000_000_000_000;

/// The greatest time of an event.
pub const LATEST: u64 = 10_000_000_000_000;

/// The most units that a side is loosened or narrowed by.
pub const SIDE_UNITS: u64 = 10_000_000_000_000;

/// The most units of an edge.
pub const EDGE_UNITS: u64 = 10_000_000_000;

/// The greatest number of a shared entry.
pub const ENTRY: u32 = 4_294_967_295;
