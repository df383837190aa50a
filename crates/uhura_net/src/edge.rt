//! An edge between two events of the worst case.
ghost use Rattle.std.specs.Prelude.{◌≡◌};
ghost use Rattle.uhura_net.specs.Lists.{end_node};

/// The number of nodes: one for each controllable event, and two for each end of a duration.
pub const NODES: usize = 1024;

/// How many units an edge that isn't loose can carry: more than all loose ones together.
pub const FIRM_CAPACITY: u64 = 10_000_000_000;

/// It says that the time of `to` is at most `bound` after the time of `from`. At most `capacity` units pass along it:
/// the price of a unit on a loose edge.
#[derive(Clone, Copy, Debug, PartialEq, Eq)]
pub struct Edge {
    pub from: u32,
    pub to: u32,
    pub bound: i64,
    pub capacity: u64,
}

/// An end of an edge.
#[derive(Clone, Copy, Debug, PartialEq, Eq)]
pub enum End {
    From,
    To,
}

impl Edge {
    /// The node at an end.
    pub fn node(self, end: End) -> u32
        ensures { result ≡ end_node end self }
    {
        match end {
            End::From => self.from,
            End::To => self.to,
        }
    }
}
