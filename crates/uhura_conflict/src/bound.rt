//! What a store knows of branches.

/// A firm cycle, under its key, which shuts them; or a flow, whose value none of them can cost less than; or nothing,
/// which counts as a flow of value 0.
#[derive(Clone, Copy, Debug, PartialEq, Eq)]
pub enum Bound {
    Nothing,
    Flow { value: i128, key: usize },
    Stuck { key: usize },
}
