//! How far a search has come.
use crate::Step;

/// How many nodes have a label; the cap, which falls to the cost of each cheaper path; and the step with which the
/// cheapest so far begins.
#[derive(Clone, Copy)]
pub(crate) struct Front {
    pub(crate) count: usize,
    pub(crate) cap: u64,
    pub(crate) closing: Option<Step>,
}
