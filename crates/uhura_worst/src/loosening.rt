//! By how much sides are loosened or narrowed.
ghost use Rattle.std.specs.Prelude.{◌≡◌, [], ◌∷◌, ◌++◌, ◌≤◌, is_ok, if◌then◌else◌};
ghost use Rattle.uhura_worst.specs.Units.{side_units, AreUnits, IsLoosening};

use std::alloc::{AllocError, Global};
use std::marker::Model;
use uhura_plan::{SideKey, is_same_key};

/// Sides with their units above 0, each side at most once, in the order in which they were added.
#[derive(Drop)]
pub struct Loosening {
    pairs: Vec<(SideKey, u64)>,
}

impl Model for Loosening {
    ghost use Rattle.std.specs.Prelude.{List, ℕ};
    ghost use Rattle.uhura_plan.specs.declared.key.SideKey.{SideKey};
    ghost use Rattle.uhura_worst.specs.Units.{IsLoosening};

    ghost Value = { List (SideKey × ℕ) };

    ghost view = { λ l. l.pairs.items };

    ghost invariant = { λ l. IsLoosening l.pairs.items };
}

impl Loosening {
    /// No side is loosened or narrowed.
    pub fn new(alloc: Global) -> Loosening
        ensures { result ≡ [] }
    {
        Loosening {
            pairs: Vec::new(alloc),
        }
    }

    /// Adds a side that has no units yet.
    pub fn add(&mut self, key: SideKey, units: u64) -> Result<(), AllocError>
        requires fresh { side_units self.old key ≡ 0 }
        requires units { AreUnits units }
        ensures { self.new ≡ (if is_ok result then self.old ++ (key, units) ∷ [] else self.old) }
    {
        self.pairs.push((key, units))?;
        Ok(())
    }

    /// The sides with their units.
    pub fn pairs(&self) -> &[(SideKey, u64)]
        ensures pairs { result.now ≡ self.now }
        ensures sound { IsLoosening self.now }
    {
        self.pairs.as_slice()
    }

    /// The units of a side, 0 where none were added.
    pub fn units(&self, key: SideKey) -> u64
        ensures units { result ≡ side_units self.now key }
        ensures most { result ≤ 10_000_000_000_000 }
    {
        units_of(self.pairs.as_slice(), key)
    }
}

/// The units that the pairs give a side.
fn units_of(pairs: &[(SideKey, u64)], key: SideKey) -> u64
    ensures { result ≡ side_units pairs.now key }
{
    for (side, units) in pairs {
        if is_same_key(*side, key) {
            return *units;
        }
    }
    0
}
