//! What no script shows of the libraries and a value by hand does: edits of one flow, and a plan from a number.
//!
//! The calls that take memory are made by the scripts of `tests/cases`. The tests of all libraries stand in this one
//! crate, since a crate with tests is proved twice.
#![tactic(auto)]

#[cfg(test)]
mod edges;
#[cfg(test)]
mod edits;
#[cfg(test)]
mod generated;
