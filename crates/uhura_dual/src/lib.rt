//! Between circulations and proposals. `loosening` reads a proposal off potentials of the nodes; what it costs is
//! what the potentials pass the bounds of loose edges by (`specs/ReadOff.antt`). `laws` says what circulations, walks
//! and denials show of all proposals whose branch begins with some picks (`specs/Settled.antt`).
#![tactic(auto)]

pub mod examples;
pub mod laws;
mod passing;
mod reading;

pub use reading::loosening;
