//! A circulation of greatest value with potentials that show it, kept under edits of its edges (`specs/Flow.antt`,
//! `specs/Changes.antt`, `specs/Reading.antt`). A change sends units through its own place, along one shortest path
//! after the other (`specs/Turns.antt`, `specs/Loops.antt`), until all is optimal again (`specs/Placing.antt`). Wide
//! gaps between potentials are narrowed where they grow too high (`specs/Narrowed.antt`).
#![tactic(auto)]

mod draining;
mod filling;
mod flow;
mod narrowing;
mod placing;
mod potentials;
mod room;
mod round;
mod sending;
mod settled;
mod stuck;
mod through;
mod turning;

pub use flow::Flow;
pub use settled::Settled;
pub(crate) use through::Through;
