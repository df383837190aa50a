//! A plan, as its tables hold it.
ghost use Rattle.std.specs.Prelude.{◌≡◌, IfOk};
ghost use Rattle.uhura_plan.specs.Lists.{empty};

mod add;
mod change;
mod copy;
mod look_up;
mod made;
mod refuse;
mod slot;

use crate::{Choice, Name, Requirement, Uncertain};
use indexmap::{IndexMap, IndexSet};
pub use refuse::repeated_in;
use std::alloc::{AllocError, Global};
use std::marker::Model;

/// The events, the durations, the choices and the requirements, each in its order and under its name.
#[derive(Drop)]
pub struct Plan {
    events: IndexSet<Name>,
    ends: IndexSet<Name>,
    uncertains: IndexMap<Name, Uncertain>,
    choices: IndexMap<Name, Choice>,
    requirements: IndexMap<Name, Requirement>,
}

impl Model for Plan {
    ghost use Rattle.uhura_plan.specs.Lists.{Lists};
    ghost use Rattle.uhura_plan.specs.Tables.{lists_of, HoldsPlan};

    ghost Value = { Lists };

    ghost view = { λ p.
        lists_of p.events.keys p.uncertains.entries p.choices.entries p.requirements.entries };

    ghost invariant = { λ p.
        HoldsPlan p.events.keys p.ends.keys p.uncertains.entries p.choices.entries
        p.requirements.entries };
}

impl Plan {
    /// The empty plan.
    pub fn new(alloc: Global) -> Result<Plan, AllocError>
        ensures { IfOk result (λ plan. plan ≡ empty) }
    {
        Ok(Plan {
            events: IndexSet::new(alloc),
            ends: IndexSet::new(alloc),
            uncertains: IndexMap::new(alloc),
            choices: IndexMap::new(alloc),
            requirements: IndexMap::new(alloc),
        })
    }
}
