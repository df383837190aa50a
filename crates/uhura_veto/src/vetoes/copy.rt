//! A copy of vetoes.
ghost use Rattle.std.specs.Prelude.{◌≡◌, IfOk};

use super::Vetoes;
use crate::Veto;
use indexmap::IndexMap;
use std::alloc::AllocError;
use uhura_plan::Name;

impl Vetoes {
    /// The same vetoes, in memory of their own.
    pub fn copy(&self) -> Result<Vetoes, AllocError>
        ensures { IfOk result (λ vetoes. vetoes ≡ self.now) }
    {
        Ok(Vetoes {
            vetoes: copy_of_table(&self.vetoes)?,
        })
    }
}

/// A copy of a table whose vetoes are equal to their own copies.
fn copy_of_table(table: &IndexMap<Name, Veto>) -> Result<IndexMap<Name, Veto>, AllocError>
    ensures { IfOk result (λ copy. copy.entries ≡ table.now.entries) }
{
    table.clone()
}
