//! What comes of a change.

/// Whether a change was made, and the flow is optimal again, or the edges that aren't loose have a closed walk with
/// it whose bounds sum below 0, and nothing was changed.
#[derive(Clone, Copy, Debug, PartialEq, Eq)]
pub enum Settled {
    Optimal,
    Stuck,
}
