//! The earliest schedule of a branch with some sides loosened or narrowed: what it is, and why there may be none,
//! stands in `specs/Schedule.antt`, and the edges whose times it takes in `specs/Loosened.antt`.
#![tactic(auto)]

mod earliest_times;
mod loosened;
mod refusal;
mod schedule;
mod scratch;

pub use earliest_times::{earliest, earliest_in};
pub use refusal::RelaxRefusal;
pub use schedule::Schedule;
pub use scratch::RelaxScratch;
