//! Why a command is refused in a state.
use std::alloc::AllocError;
use thiserror::Error;
use uhura_plan::EditRefusal;

/// Why a command left the state as it was. Of several causes the one that stands first here is given.
#[derive(Clone, Copy, Debug, PartialEq, Eq, Error)]
pub enum StateRefusal {
    /// The name is in use.
    #[error("the name is taken")]
    Taken,
    /// A name isn't in the plan.
    #[error("a name is unknown")]
    Unknown,
    /// An event of the wrong kind, or one event in two places.
    #[error("an event doesn't fit there")]
    Kind,
    /// The lower bound is above the upper bound.
    #[error("nothing lies between {lower} and {upper}")]
    Empty { lower: i64, upper: i64 },
    /// The first literal, counted from 0, that names a choice already named.
    #[error("literal {at} names a choice for the second time")]
    Guard { at: u32 },
    /// As many things as the limit allows are there, or more were given.
    #[error("the limit is {limit}, and there are {has}")]
    Full { limit: u32, has: u32 },
    /// A cap names the requirement in this slot.
    #[error("a cap names the requirement in slot {slot}")]
    Held { slot: u32 },
    /// Memory ran out.
    #[error("{0}")]
    Memory(AllocError),
}

impl From<EditRefusal> for StateRefusal {
    ghost use Rattle.std.specs.Prelude.{◌≡◌};
    ghost use Rattle.uhura_command.specs.Apply.{of_edit};

    ghost from_gives = { λ edit refusal. refusal ≡ of_edit edit };

    fn from(edit: EditRefusal) -> StateRefusal {
        match edit {
            EditRefusal::Taken => StateRefusal::Taken,
            EditRefusal::Unknown { .. } => StateRefusal::Unknown,
            EditRefusal::Kind => StateRefusal::Kind,
            EditRefusal::Empty { lower, upper } => StateRefusal::Empty { lower, upper },
            EditRefusal::Guard { at } => StateRefusal::Guard { at },
            EditRefusal::Full { limit, has } => StateRefusal::Full { limit, has },
            EditRefusal::Memory(error) => StateRefusal::Memory(error),
        }
    }
}
