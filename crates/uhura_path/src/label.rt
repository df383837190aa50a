//! What a search notes at a node.
use uhura_net::Place;

/// A step of a walk: along the edge at a place, forward or backward.
#[derive(Clone, Copy, Debug)]
pub struct Step {
    pub place: Place,
    pub backward: bool,
}

/// The node's distance to the root as far as is known, and the step that leads there. It counts for the search with
/// this mark.
#[derive(Clone, Copy, Debug)]
pub struct Label {
    pub mark: u32,
    pub distance: u64,
    pub step: Step,
}

impl Label {
    /// A label that counts for no search.
    pub const NONE: Label = Label {
        mark: 0,
        distance: 0,
        step: Step {
            place: Place(0),
            backward: false,
        },
    };
}
