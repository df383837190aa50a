//! What a search found.
use crate::Label;
use uhura_net::Place;

/// A path: its places in order, which of them are walked backward, and the least room on it.
#[derive(Clone, Copy, Debug)]
pub struct Path<'a> {
    pub places: &'a [Place],
    pub backward: &'a [bool],
    pub least: u64,
}

/// The least cost of a path from the goal to the root with such a path, where it is below the cap, and else the cap.
/// The reached nodes are those that were found to be no farther from the root, each with its label.
#[derive(Clone, Copy, Debug)]
pub struct Found<'a> {
    pub cost: u64,
    pub path: Option<Path<'a>>,
    pub reached: &'a [u32],
    pub labels: &'a [Label],
}

/// The distance of each node, and a shortest path to one of them.
#[derive(Clone, Copy, Debug)]
pub struct Reach<'a> {
    pub distances: &'a [Option<i64>],
    pub path: Option<Path<'a>>,
}
