//! The answer to a question as it is stated: from what the search found, the best proposal with its earliest schedule
//! (`specs/Stated.antt`).
#![tactic(auto)]

mod answer;
mod literals;

pub use answer::stated_answer;
