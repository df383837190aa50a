//! The answer to `prove`: a document that shows an answer (`specs/Proof.antt`). What was learned of branches becomes
//! shared entries, each written once (`specs/Entries.antt`), and the leaves use them (`specs/Made.antt`). `laws` says
//! that what is written is read as a confirmed document.
#![tactic(auto)]

mod document;
mod entries;
mod entry;
pub mod laws;
mod leaves;
mod order;
mod proof;

pub use document::document_of;
pub use proof::put_proof;
