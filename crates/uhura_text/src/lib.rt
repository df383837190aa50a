//! Text of scripts: lines out of bytes, words out of a line, numbers both ways.
#![tactic(auto)]

mod lines;
mod numeral;
mod split;
mod word;

pub use lines::{Fed, LINE_LIMIT, Lines};
pub use numeral::{DIGITS, NotNumber, number, put_number};
pub use split::{BadByte, is_quiet, words};
pub use word::Words;
