//! What a line of a document says.
use crate::Picks;
use uhura_command::{Command, ItemName};
use uhura_plan::{Name, Side};

/// Which of a side's edges: as stated, past the units that its first price covers, or moved by its room.
#[derive(Clone, Copy, Debug, PartialEq, Eq)]
pub enum EdgeKind {
    Loose,
    Steep,
    Firm,
}

/// An edge, by the name of the requirement or the duration that it belongs to.
#[derive(Clone, Copy, Debug)]
pub enum EdgeName {
    /// `require N SIDE KIND` or `uncertain N SIDE KIND`
    Side(ItemName, Side, EdgeKind),
    /// `uncertain N order`
    Order(Name),
}

/// A line of a document. Its names are those that stand in the line.
#[derive(Drop)]
pub enum Item {
    /// `document VERSION`
    Version(u32),
    /// A line of the script.
    Command(Command),
    /// `answer`
    Answer,
    /// `none`
    Nothing,
    /// `proposal COST`
    Proposal(u128),
    /// `pick C A`
    Pick(Name, Name),
    /// `loosen N SIDE UNITS` for a requirement, `narrow N SIDE UNITS` for a duration.
    Relax(ItemName, Side, u64),
    /// `at E T`
    At(Name, u64),
    /// `end`
    End,
    /// `shared flow`
    SharedFlow,
    /// `shared stuck`
    SharedStuck,
    /// `leaf W ..`
    Leaf(Picks),
    /// `denied V`
    Denied(Name),
    /// `flow`
    Flow,
    /// `stuck`
    Stuck,
    /// `units EDGE UNITS`
    Units(EdgeName, u64),
    /// `edge EDGE`
    Edge(EdgeName),
    /// `use K`
    Use(u32),
}
