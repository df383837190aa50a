//! Large plans, each drawn from a number: for measuring, and for tries on something large.
#![tactic(auto)]

mod answer;
mod choices;
mod draw;
mod durations;
mod events;
mod name;
mod plan;
mod requirements;

pub use plan::plan_of;
