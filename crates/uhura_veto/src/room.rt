//! How far a side may be loosened or narrowed.

/// The most units that a side may be loosened or narrowed by.
#[derive(Clone, Copy, Debug, PartialEq, Eq)]
pub enum Room {
    Units(u64),
    Unlimited,
}
