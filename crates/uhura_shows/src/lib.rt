//! What leaves show: which branches prefixes cover (`specs/Cover.antt`), and when a denial, a closed walk or units on
//! edges show that the branches of a prefix have nothing better than an answer (`specs/Shows.antt`, tried on worked
//! plans in `examples`). `laws` says what follows for the proposals that are allowed, and `next_branch_behind` goes
//! on behind a prefix.
#![tactic(auto)]

pub mod examples;
mod front;
pub mod laws;
mod walk;

pub use front::{front_of, prefix_of_first};
pub use walk::{first_branch_with, next_branch_behind};
