//! How an event, a side and a worst-case edge are named.
ghost use Rattle.std.specs.Prelude.{◌≡◌};
ghost use Rattle.uhura_plan.specs.Keys.{is_same_key};

/// The lower or the upper side of a requirement or of an uncertain duration.
#[derive(Clone, Copy, Debug, PartialEq, Eq)]
pub enum Side {
    Lower,
    Upper,
}

/// A controllable event by its place among the events, or the end of an uncertain duration by the
/// duration's place.
#[derive(Clone, Copy, Debug, PartialEq, Eq)]
pub enum EventRef {
    Controllable(u32),
    End(u32),
}

/// What has sides: a requirement by its slot, or an uncertain duration by its place.
#[derive(Clone, Copy, Debug, PartialEq, Eq)]
pub enum Item {
    Requirement(u32),
    Uncertain(u32),
}

/// One side of an item.
#[derive(Clone, Copy, Debug, PartialEq, Eq)]
pub struct SideKey {
    pub item: Item,
    pub side: Side,
}

/// Whether two keys name one side.
pub fn is_same_key(a: SideKey, b: SideKey) -> bool
    ensures { result ≡ is_same_key a b }
{
    a == b
}

/// A worst-case edge: a side's edge as stated, its edge moved by the room, the edge that keeps the range of the
/// duration in this place from being empty, or a side's edge moved by the units that its first price covers.
#[derive(Clone, Copy, Debug, PartialEq, Eq)]
pub enum EdgeKey {
    Loose(SideKey),
    Firm(SideKey),
    Order(u32),
    Steep(SideKey),
}
