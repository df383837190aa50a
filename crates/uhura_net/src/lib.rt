//! The edges of the worst case and their numbered places: which edge stands at which place (`specs/Place.antt`), a
//! table of them, and what it is that times keep edges and that edges make a walk (`specs/Edges.antt`,
//! `specs/Walk.antt`). A net is edges with a circulation on them (`specs/Circulation.antt`), which is moved around
//! residual cycles (`specs/Residual.antt`). `laws` says what such a circulation is worth.
#![tactic(auto)]

mod edge;
pub mod laws;
mod lists;
mod moving;
mod net;
mod place;
mod sparse;
mod table;
mod worth;

pub use edge::{Edge, End, FIRM_CAPACITY, NODES};
pub use lists::Lists;
pub use net::Net;
pub use place::{PLACES, Place, key_of, place_of};
pub use table::EdgeTable;
