//! An edge that is followed.
use uhura_net::{Edge, Place};

/// An edge and the place where it stands.
#[derive(Clone, Copy, Debug)]
pub struct Step {
    pub place: Place,
    pub edge: Edge,
}
