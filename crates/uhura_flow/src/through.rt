//! The place through which units are sent.
use uhura_net::{Edge, Place};

/// A place with its edge, along which units are sent, or back.
#[derive(Clone, Copy, Debug)]
pub struct Through {
    pub place: Place,
    pub edge: Edge,
    pub back: bool,
}
