//! The answer to a question: the branch of a cheapest proposal, with leaves that show it (`specs/Answer.antt`). The
//! branches are walked in order, and those of a prefix that is shut (`specs/Shut.antt`) are passed at once. One flow
//! is moved from branch to branch (`specs/Moving.antt`), and what it shows is learned where it shuts a branch
//! (`specs/Learning.antt`), at as few of its picks as may be (`specs/Fronts.antt`). Then leaves cover all branches
//! (`specs/Appended.antt`). What is learned is kept from question to question (`specs/Searcher.antt`), and revised
//! when the plan or the vetoes change (`specs/Revised.antt`): the table is filled anew where it differs
//! (`specs/Refilled.antt`), and all is taken over to it (`specs/Taken.antt`). What is kept bounds all that is allowed
//! (`specs/Bounds.antt`).
#![tactic(auto)]

mod adding;
mod ask;
mod closing;
mod cover;
mod fronts;
mod going;
mod guards;
mod incumbent;
mod keeping;
pub mod laws;
mod leaf;
mod learning;
pub mod moving;
mod outcome;
mod places;
mod refilling;
mod searcher;
mod shut;
mod solving;
mod starting;
mod stepping;
mod taking;
mod trying;

pub use leaf::{LeafNote, LeafReason};
pub use outcome::Outcome;
pub use searcher::Searcher;
