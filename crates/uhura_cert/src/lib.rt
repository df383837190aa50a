//! Proposals and documents as text: when the parts of a document fit one another (`specs/Document.antt`), the line
//! that each part has (`specs/Items.antt`), and how both are written. `specs/Text.antt` says which lines are a
//! document's, and which line of others is the first that no document has. Documents are read line by line:
//! `specs/Machine.antt` says how lines are taken one by one (`one_by_one`), and `specs/Reading.antt` what a reader
//! makes of them. What was written reads back (`laws`).
#![tactic(auto)]

mod document;
mod in_order;
mod items;
pub mod laws;
mod leaf;
mod leaf_lines;
mod listed;
mod lists;
mod named;
mod next;
pub mod one_by_one;
mod order;
mod place;
mod prefix;
mod progress;
mod read;
mod reader;
mod script_line;
mod sides;
mod write;

pub use document::{Document, DocumentRefusal, Leaf, Proposal, Reason, Shared};
pub use listed::Listed;
pub use read::read_document;
pub use write::{write_document, write_proposal};
