//! Why an edit of a plan is refused.
use std::alloc::{AllocError, AllocFailed};
use thiserror::Error;

/// Why an edit left everything as it was. Of several causes an edit answers the one that stands
/// first here.
#[derive(Clone, Copy, Debug, PartialEq, Eq, Error)]
pub enum EditRefusal {
    /// The name is in use.
    #[error("the name is taken")]
    Taken,
    /// A name of the call isn't in the plan: the first such, counted from 0 in the order of the
    /// arguments, a literal as two names.
    #[error("name {which} of the call is unknown")]
    Unknown { which: u32 },
    /// An event of the wrong kind, or one event in two places.
    #[error("an event doesn't fit there")]
    Kind,
    /// The lower bound is above the upper bound.
    #[error("nothing lies between {lower} and {upper}")]
    Empty { lower: i64, upper: i64 },
    /// The first literal, counted from 0, that names a choice already named.
    #[error("literal {at} names a choice for the second time")]
    Guard { at: u32 },
    /// As many things as the limit allows are there, or more were given.
    #[error("the limit is {limit}, and there are {has}")]
    Full { limit: u32, has: u32 },
    /// Memory ran out.
    #[error("{0}")]
    Memory(AllocError),
}

impl From<AllocError> for EditRefusal {
    ghost use Rattle.std.specs.Prelude.{◌≡◌};
    ghost use Rattle.uhura_plan.specs.declared.refusal.EditRefusal.TheVariants.{Memory};

    ghost from_gives = { λ error refusal. refusal ≡ Memory error };

    fn from(error: AllocError) -> EditRefusal {
        EditRefusal::Memory(error)
    }
}

impl<T: Drop> From<AllocFailed<T>> for EditRefusal {
    ghost use Rattle.std.specs.Prelude.{◌≡◌, alloc_error};
    ghost use Rattle.uhura_plan.specs.declared.refusal.EditRefusal.TheVariants.{Memory};

    ghost from_gives = { λ _ refusal. refusal ≡ Memory alloc_error };

    fn from(failed: AllocFailed<T>) -> EditRefusal {
        EditRefusal::Memory(failed.into())
    }
}
