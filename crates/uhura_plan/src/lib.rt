//! The plan: events, uncertain durations, choices and requirements, by name and in order.
//!
//! It has no tests of its own: its contracts say each answer but want of memory. The calls that take memory,
//! `Plan::new` and the edits that add, are made by the cases of the whole program in tests/cases, which compare what
//! was made.
#![tactic(auto)]

mod choice;
mod guard;
mod key;
mod limits;
mod name;
mod plan;
mod price;
mod refusal;
mod requirement;
mod uncertain;

pub use choice::{Alternatives, Choice};
pub use guard::{Guard, Literal};
pub use key::{EdgeKey, EventRef, Item, Side, SideKey, is_same_key};
pub use limits::{
    ALTERNATIVES, AMOUNT, BOUND, BRANCHES, CHOICES, EVENTS, LITERALS, NAME_BYTES, REQUIREMENTS,
    UNCERTAINS, UNIT_PRICE,
};
pub use name::{Name, NotName};
pub use plan::{Plan, repeated_in};
pub use price::{Price, Rate, Second};
pub use refusal::EditRefusal;
pub use requirement::{Bounded, Requirement};
pub use uncertain::Uncertain;
