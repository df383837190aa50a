//! Why a line is no command.
use std::alloc::AllocError;
use thiserror::Error;

/// Why a line is refused. Of several causes the one that stands first here is given.
#[derive(Clone, Copy, Debug, PartialEq, Eq, Error)]
pub enum LineRefusal {
    /// The line has more than 4,096 bytes.
    #[error("the line has more than 4,096 bytes")]
    Long,
    /// A byte that is neither space, tab nor from 0x21 to 0x7E: the place of the first such, from 0.
    #[error("byte {at} may not stand in a line")]
    Byte { at: u32 },
    /// The first word is no verb.
    #[error("the first word is no verb")]
    Verb,
    /// The number of words, or a fixed word at its place, fits no form of the verb.
    #[error("the words fit no form of the verb")]
    Form,
    /// A word in a number's place is no number, or is out of that place's limits.
    #[error("a word is no number within the limits of its place")]
    Number,
    /// A word in a name's place is no name.
    #[error("a word is no name")]
    Name,
    /// Memory ran out.
    #[error("{0}")]
    Memory(AllocError),
}
