//! The lines of a document, each by itself: what a line says (`Item`), how it is spelled (`specs/Item.antt`), and how
//! it is read and written. What may follow what is no matter of this crate.
#![tactic(auto)]

mod behind;
mod edge;
mod head;
mod item;
pub mod laws;
mod leaf;
mod limits;
mod picks;
mod read;
mod word;
mod write;

pub use item::{EdgeKind, EdgeName, Item};
pub use limits::{EDGE_UNITS, ENTRY, GREATEST_COST, LATEST, SIDE_UNITS};
pub use picks::Picks;
pub use read::read_item;
pub use write::put_item;
