//! Leaves of an answer.

use uhura_choice::Prefix;
use uhura_conflict::Conflict;
use uhura_plan::Name;

/// Why no branch of a prefix has a better answer: the denial of this name denies it, or so many costs are picked
/// there, or this conflict applies to it.
#[derive(Drop)]
pub enum LeafReason {
    Denied(Name),
    Empty,
    Learned(Conflict),
}

/// A prefix of branches with its reason.
#[derive(Drop)]
pub struct LeafNote {
    pub prefix: Prefix,
    pub reason: LeafReason,
}
