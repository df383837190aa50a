//! A copy of a plan.
ghost use Rattle.std.specs.Prelude.{◌≡◌, IfOk};

use super::Plan;
use crate::Name;
use indexmap::{IndexMap, IndexSet};
use std::alloc::AllocError;

impl Plan {
    /// A plan of the same items, in memory of its own.
    pub fn copy(&self) -> Result<Plan, AllocError>
        ensures { IfOk result (λ plan. plan ≡ self.now) }
    {
        Ok(Plan {
            events: copy_of_names(&self.events)?,
            ends: copy_of_names(&self.ends)?,
            uncertains: copy_of_table(&self.uncertains)?,
            choices: copy_of_table(&self.choices)?,
            requirements: copy_of_table(&self.requirements)?,
        })
    }
}

fn copy_of_names(names: &IndexSet<Name>) -> Result<IndexSet<Name>, AllocError>
    ensures { IfOk result (λ copy. copy.keys ≡ names.now.keys) }
{
    names.clone()
}

// A copy of a table whose items are equal to their own copies.
fn copy_of_table<V: Clone>(table: &IndexMap<Name, V>) -> Result<IndexMap<Name, V>, AllocError>
    requires { (item copy : V) → V.is_clone item copy → copy ≡ item }
    ensures { IfOk result (λ copy. copy.entries ≡ table.now.entries) }
{
    table.clone()
}
