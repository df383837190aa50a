//! A discrete choice among named alternatives.
ghost use Rattle.std.specs.Prelude.{◌≡◌, map, position, IsSome, bytes_eq, All, IfOk, OnOk};
ghost use Rattle.uhura_plan.specs.Changes.{costs_with};
ghost use Rattle.uhura_plan.specs.Find.{place_of};
ghost use Rattle.uhura_plan.specs.Sound.{IsName, AreDistinct};

use crate::{Guard, Name};
use std::alloc::{AllocError, Global};
use std::marker::Model;

/// The alternatives of a choice in order, each with its cost.
#[derive(Clone, Drop)]
pub struct Alternatives {
    pairs: Vec<(Name, u32)>,
}

impl Model for Alternatives {
    ghost use Rattle.std.specs.Prelude.{List, ℕ};

    ghost Value = { List (List ℕ × ℕ) };

    ghost view = { λ a. a.pairs.items };
}

impl Alternatives {
    /// The alternatives that a `Vec` lists.
    pub fn from_vec(pairs: Vec<(Name, u32)>) -> Alternatives
        ensures { result ≡ pairs.items }
    {
        Alternatives { pairs }
    }

    /// A copy of the pairs. By their type their names are names, as a plan keeps.
    pub(crate) fn from_slice(
        alloc: Global,
        pairs: &[(Name, u32)],
    ) -> Result<Alternatives, AllocError>
        ensures same { IfOk result (λ copy. copy ≡ pairs.now) }
        ensures names { OnOk result (All (λ a. IsName a.0) pairs.now) }
    {
        let mut copy = Vec::with_capacity(alloc, pairs.len())?;
        for (name, cost) in pairs {
            let _ = name.bytes();
            copy.push((*name, *cost))?;
        }
        Ok(Alternatives { pairs: copy })
    }

    /// The alternatives as a slice.
    pub fn as_slice(&self) -> &[(Name, u32)]
        ensures { result.now ≡ self.now }
    {
        self.pairs.as_slice()
    }

    /// The place of the alternative of this name.
    pub(crate) fn find(&self, name: Name) -> Option<usize>
        ensures { result ≡ place_of (map (λ a. a.0) self.now) name }
    {
        pair_named(self.pairs.as_slice(), name)
    }

    /// Sets the cost of the alternative of this name, which is there.
    pub(crate) fn set_cost(&mut self, name: Name, cost: u32)
        requires there { IsSome (place_of (map (λ a. a.0) self.old) name) }
        requires once { AreDistinct (map (λ a. a.0) self.old) }
        ensures { self.new ≡ costs_with name cost self.old }
    {
        let place = self.find(name).unwrap();
        self.pairs[place].1 = cost;
    }
}

/// The place of the first pair of this name.
fn pair_named(pairs: &[(Name, u32)], name: Name) -> Option<usize>
    ensures { result ≡ position (λ a. bytes_eq name a.0) pairs.now }
{
    pairs.iter().position(|pair| name == pair.0)
}

/// A choice: it is made where its guard holds, and its guard names earlier choices alone.
#[derive(Clone, Drop)]
pub struct Choice {
    pub name: Name,
    pub alternatives: Alternatives,
    pub guard: Guard,
}
