//! The line language: the commands, what a line is parsed to, and how each command is written.
#![tactic(auto)]

mod command;
pub mod laws;
mod literals;
mod parsing;
mod part;
mod refusal;
mod verb;
mod write;

pub use command::{Command, ItemName};
pub use literals::Literals;
pub use parsing::{LINE_BYTES, parse};
pub use part::count::{is_end, next_three};
pub use part::item::{ItemKind, put_item};
pub use part::places::{put_side, put_word, read_side};
pub use refusal::LineRefusal;
pub use verb::put_command;
pub use write::write_command;
