//! What was learned of branches: a flow or a firm cycle.
ghost use Rattle.std.specs.Prelude.{◌≡◌, ◌<◌, ◌≤◌, ◌↔◌, IsTrue, IsFalse, IfOk};
ghost use Rattle.std.specs.List.{All};
ghost use Rattle.uhura_flow.specs.Flow.{flow_units};
ghost use Rattle.uhura_net.specs.declared.place.TheConstants.{PLACES};
ghost use Rattle.uhura_conflict.specs.Learned.{places_in, AreFlowPairs, AreUnitsOf, IsLearned, walk_pairs};
ghost use Rattle.uhura_conflict.specs.Literals.{AreActiveTogether, AreUsedTogether, AreLiteralsOf, Applies};
ghost use Rattle.uhura_conflict.specs.Used.{AreUsedAmong};

use crate::literals::{applies, literals_of};
use crate::used::{used_among, used_pairs};
use std::alloc::{AllocError, Global};
use std::marker::Model;
use std::rc::RcSlice;
use uhura_choice::Pick;
use uhura_flow::Flow;
use uhura_net::{PLACES, Place};
use uhura_plan::{CHOICES, Plan};

/// Places with their units, and the literals of the guards of the requirements at them. A flow has them in the order
/// of the places, a firm cycle in the order of the walk. The pairs are shared by all owners.
#[derive(Drop)]
pub struct Conflict {
    pairs: RcSlice<(Place, u64)>,
    literals: [Option<u8>; CHOICES as usize],
    stuck: bool,
}

impl Model for Conflict {
    ghost use Rattle.std.specs.Rc.{rc_slice_items};
    ghost use Rattle.uhura_conflict.specs.Learned.{Learned, IsLearned};

    ghost Value = { Learned };

    ghost view = { λ c. record {
      pairs = rc_slice_items c.pairs;
      stuck = c.stuck;
      literals = c.literals;
    } };

    ghost invariant = { λ c. IsLearned (record {
      pairs = rc_slice_items c.pairs;
      stuck = c.stuck;
      literals = c.literals;
    }) };
}

impl Conflict {
    /// The flow's present units above 0, by rising places. In some branch all requirements among them are active.
    pub fn flow(alloc: Global, plan: &Plan, net: &Flow) -> Result<Conflict, AllocError>
        requires together { AreUsedTogether plan.now (flow_units net.now) }
        ensures flow { IfOk result (λ c. IsFalse c.stuck) }
        ensures units { IfOk result (λ c. AreUnitsOf (flow_units net.now) c.pairs) }
        ensures literals { IfOk result (λ c.
            AreLiteralsOf plan.now (places_in c.pairs) c.literals) }
    {
        Conflict::of_pairs(plan, used_pairs(alloc, net)?, false)
    }

    /// The same, where the places with units are all among these, which rise. No others are looked at.
    pub fn flow_among(
        alloc: Global,
        plan: &Plan,
        net: &Flow,
        places: &[u32],
    ) -> Result<Conflict, AllocError>
        requires among { AreUsedAmong (flow_units net.now) places.now }
        requires together { AreUsedTogether plan.now (flow_units net.now) }
        ensures flow { IfOk result (λ c. IsFalse c.stuck) }
        ensures units { IfOk result (λ c. AreUnitsOf (flow_units net.now) c.pairs) }
        ensures literals { IfOk result (λ c.
            AreLiteralsOf plan.now (places_in c.pairs) c.literals) }
    {
        Conflict::of_pairs(plan, used_among(alloc, net, places)?, false)
    }

    /// The firm cycle along these places, each with 1 unit. In some branch all requirements among them are active.
    pub fn stuck(alloc: Global, plan: &Plan, cycle: &[Place]) -> Result<Conflict, AllocError>
        requires inside { All (λ place. place.0 < PLACES) cycle.now }
        requires together { AreActiveTogether plan.now cycle.now }
        ensures stuck { IfOk result (λ c. IsTrue c.stuck) }
        ensures pairs { IfOk result (λ c. c.pairs ≡ walk_pairs cycle.now) }
        ensures literals { IfOk result (λ c. AreLiteralsOf plan.now cycle.now c.literals) }
    {
        Conflict::of_pairs(plan, walk_pairs(alloc, cycle)?, true)
    }

    /// The conflict of these pairs.
    pub(crate) fn of_pairs(
        plan: &Plan,
        pairs: Vec<(Place, u64)>,
        stuck: bool,
    ) -> Result<Conflict, AllocError>
        requires inside { All (λ pair. pair.0.0 < PLACES) pairs.items }
        requires some { All (λ pair. 1 ≤ pair.1) pairs.items }
        requires walk { IsTrue stuck → All (λ pair. pair.1 ≡ 1) pairs.items }
        requires flow { IsFalse stuck → AreFlowPairs pairs.items }
        requires together { AreActiveTogether plan.now (places_in pairs.items) }
        ensures stuck { IfOk result (λ c. c.stuck ≡ stuck) }
        ensures pairs { IfOk result (λ c. c.pairs ≡ pairs.items) }
        ensures literals { IfOk result (λ c.
            AreLiteralsOf plan.now (places_in pairs.items) c.literals) }
    {
        let literals = literals_of(plan, pairs.as_slice());
        Ok(Conflict {
            pairs: RcSlice::from_vec(pairs)?,
            literals,
            stuck,
        })
    }

    /// The places with their units.
    pub fn units(&self) -> &[(Place, u64)]
        ensures pairs { result.now ≡ self.now.pairs }
        ensures sound { IsLearned self.now }
    {
        self.pairs.as_slice()
    }

    /// Whether it is a firm cycle.
    pub fn is_stuck(&self) -> bool
        ensures { result ≡ self.now.stuck }
    {
        self.stuck
    }

    /// Another owner of the same places and units, with the same kind and literals.
    pub fn share(&self) -> Result<Conflict, AllocError>
        ensures { IfOk result (λ c. c ≡ self.now) }
    {
        Ok(Conflict {
            pairs: self.pairs.clone()?,
            literals: self.literals,
            stuck: self.stuck,
        })
    }

    /// Whether each literal that it asks for is picked.
    pub(crate) fn applies(&self, picks: &[Pick]) -> bool
        ensures { IsTrue result ↔ Applies picks.now self.now }
    {
        applies(&self.literals, picks)
    }

    /// At the place of each choice the alternative that it asks for.
    pub(crate) fn literals(&self) -> &[Option<u8>; CHOICES as usize]
        ensures { result.now ≡ self.now.literals }
    {
        &self.literals
    }
}

/// The places of a walk, in its order, with 1 unit each.
fn walk_pairs(alloc: Global, cycle: &[Place]) -> Result<Vec<(Place, u64)>, AllocError>
    ensures { IfOk result (λ pairs. pairs.items ≡ walk_pairs cycle.now) }
{
    let mut pairs = Vec::with_capacity(alloc, cycle.len())?;
    for place in cycle {
        pairs.push((*place, 1))?;
    }
    Ok(pairs)
}
