//! Where a reader of documents stands.

/// The part of a document that is being read.
#[derive(Clone, Copy, Debug)]
pub(crate) enum Place {
    /// Nothing is read.
    Start,
    /// In the script.
    Script,
    /// Behind the line `answer`.
    Question,
    /// In the picks of a proposal.
    Picks,
    /// In the sides of a proposal.
    Sides,
    /// In the times of a proposal.
    Times,
    /// Behind the answer and some shared entries.
    Entries,
    /// In the edges of a shared circulation.
    EntryFlow,
    /// In the edges of a shared walk.
    EntryWalk,
    /// Behind some leaves.
    Leaves,
    /// Behind the first line of a leaf.
    LeafHead,
    /// In the edges of a leaf's circulation.
    LeafFlow,
    /// In the edges of a leaf's walk.
    LeafWalk,
    /// Behind the last line.
    Done,
}
