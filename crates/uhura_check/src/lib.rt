//! The checker of documents. `check` answers yes exactly where a document is confirmed (`specs/Confirmed.antt`), and
//! else with the first of the conditions that it fails (`specs/Conditions.antt`), in their order and at their lines
//! (`specs/Table.antt`, tried on worked documents in `examples`). `laws` says what a confirmed document shows, and
//! that it is one exactly where no condition fails.
//!
//! `stating` decides the conditions on the proposal, `leaves` goes from leaf to leaf, `reasons` decides what is asked
//! of the reason of one, and `entries` works out once what the shared entries show.
#![tactic(auto)]

mod active;
mod balance;
mod checking;
mod cost;
mod covering;
mod denied;
mod edges;
mod enough;
mod entries;
pub mod examples;
mod failure;
mod flow;
mod keys;
pub mod laws;
mod leaves;
mod ledger;
mod lines;
mod meeting;
mod parts;
mod picks;
mod reasons;
mod refusal;
mod room;
mod stating;
mod units;
mod value;
mod walk;

pub use checking::check;
pub use refusal::{CheckRefusal, Code};
