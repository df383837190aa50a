//! What is searched.

/// A cap above the cost of every path: a path has fewer arcs than there are nodes, and no arc costs more than
/// `MOST_COST`.
pub const NO_CAP: u64 = 1_000_000_000_000_000_000;

/// A path that leads from `goal` to `root` and costs less than `cap`, which is at most `NO_CAP`.
#[derive(Clone, Copy, Debug)]
pub struct Task {
    pub root: u32,
    pub goal: u32,
    pub cap: u64,
}
