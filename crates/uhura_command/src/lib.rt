//! The state of a dialogue: what each command makes of it, its copy, its script, and the lines that say why a
//! command is refused. The line language stands in `uhura_line`, whose names are passed on.
#![tactic(auto)]

mod error;
pub mod laws;
mod state;

pub use error::{put_line_error, put_state_error};
pub use state::{State, StateRefusal};
pub use uhura_line::{Command, ItemName, LineRefusal, Literals, parse, write_command};
