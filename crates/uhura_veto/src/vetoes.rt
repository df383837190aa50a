//! The vetoes of a planner.
ghost use Rattle.std.specs.Prelude.{◌≡◌, [], IfOk};

mod copy;
mod edit;
mod look_up;
mod refuse;

use crate::Veto;
use indexmap::IndexMap;
use std::alloc::{AllocError, Global};
use std::marker::Model;
use uhura_plan::Name;

/// The denials and caps, each under its name, in the order in which they were made.
#[derive(Drop)]
pub struct Vetoes {
    vetoes: IndexMap<Name, Veto>,
}

impl Model for Vetoes {
    ghost use Rattle.std.specs.Prelude.{List};
    ghost use Rattle.std.specs.Map.{values_of};
    ghost use Rattle.uhura_veto.specs.declared.veto.Veto.{Veto};
    ghost use Rattle.uhura_veto.specs.Vetoes.{HoldsVetoes};

    ghost Value = { List Veto };

    ghost view = { λ v. values_of v.vetoes.entries };

    ghost invariant = { λ v. HoldsVetoes v.vetoes.entries };
}

impl Vetoes {
    /// No vetoes.
    pub fn new(alloc: Global) -> Result<Vetoes, AllocError>
        ensures { IfOk result (λ vetoes. vetoes ≡ []) }
    {
        Ok(Vetoes {
            vetoes: IndexMap::new(alloc),
        })
    }
}
