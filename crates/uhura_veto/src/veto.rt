//! What a planner rules out.
ghost use Rattle.std.specs.Prelude.{◌≡◌};
ghost use Rattle.uhura_veto.specs.Vetoes.{veto_name};

use uhura_plan::{Guard, Name, SideKey};

/// A combination of picks that no proposal may have, or the most units, from 0 to 1,000,000,000, that a
/// side may be loosened or narrowed by.
#[derive(Clone, Drop)]
pub enum Veto {
    Deny {
        name: Name,
        literals: Guard,
    },
    Cap {
        name: Name,
        key: SideKey,
        units: u32,
    },
}

impl Veto {
    /// The name of the veto.
    pub fn name(&self) -> Name
        ensures { result ≡ veto_name self.now }
    {
        match self {
            Veto::Deny { name, .. } => *name,
            Veto::Cap { name, .. } => *name,
        }
    }
}
