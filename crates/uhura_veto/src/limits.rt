//! How many vetoes there may be.

/// The most vetoes at once.
pub const VETOES: u32 = 256;
