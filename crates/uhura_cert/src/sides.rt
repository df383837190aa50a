//! The sides of a proposal as they are read.
use std::alloc::{AllocError, Global};
use std::marker::Model;
use uhura_plan::SideKey;
use uhura_worst::Loosening;

/// Sides with their units, each behind those before it in the plan's order, where slots are places.
#[derive(Drop)]
pub(crate) struct Sides {
    loosening: Loosening,
}

impl Model for Sides {
    ghost use Rattle.std.specs.Prelude.{ℕ, List};
    ghost use Rattle.uhura_plan.specs.declared.key.SideKey.{SideKey};
    ghost use Rattle.uhura_cert.specs.Order.{side_place, Rises};
    ghost use Rattle.uhura_cert.specs.Machine.{in_place};

    ghost Value = { List (SideKey × ℕ) };

    ghost view = { λ s. s.loosening };

    ghost invariant = { λ s. Rises (λ side. side_place in_place side.0) 0 s.loosening };
}

impl Sides {
    ghost use Rattle.std.specs.Prelude.{◌≡◌, ◌≤◌, [], ◌∷◌, ◌++◌, OnOk};
    ghost use Rattle.uhura_item.specs.declared.limits.TheConstants.{SIDE_UNITS};
    ghost use Rattle.uhura_item.specs.Item.{IsBetween};
    ghost use Rattle.uhura_cert.specs.Order.{side_place};
    ghost use Rattle.uhura_cert.specs.Machine.{in_place, end_of};

    /// No sides.
    pub(crate) fn new(alloc: Global) -> Sides
        ensures { result ≡ [] }
    {
        Sides {
            loosening: Loosening::new(alloc),
        }
    }

    /// Adds a side behind the others.
    pub(crate) fn add(&mut self, key: SideKey, units: u64) -> Result<(), AllocError>
        requires later { end_of (λ side. side_place in_place side.0) 0 self.old
            ≤ side_place in_place key }
        requires units { IsBetween 1 SIDE_UNITS units }
        ensures { OnOk result (self.new ≡ self.old ++ (key, units) ∷ []) }
    {
        self.loosening.add(key, units)
    }

    /// The sides with their units.
    pub(crate) fn pairs(&self) -> &[(SideKey, u64)]
        ensures { result.now ≡ self.now }
    {
        self.loosening.pairs()
    }

    /// The sides as a loosening. It takes no memory.
    pub(crate) fn into_loosening(self) -> Loosening
        ensures { result ≡ self }
    {
        self.loosening
    }
}
