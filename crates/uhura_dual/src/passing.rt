//! By how much potentials pass the bounds of sides.
ghost use Rattle.std.specs.Prelude.{◌≡◌, ℕ, ◌≤◌, pos, ◌≤ℤ◌};
ghost use Rattle.uhura_net.specs.Edges.{time_at};
ghost use Rattle.uhura_worst.specs.Nodes.{HasNodes};
ghost use Rattle.uhura_worst.specs.Edges.{IsSoundConstraint};
ghost use Rattle.uhura_worst.specs.WorstCase.{passed_by, requirement_passed};
ghost use Rattle.uhura_dual.specs.ReadOff.{ArePotentials};

use uhura_choice::{Branch, holds};
use uhura_plan::{Requirement, Side};
use uhura_worst::constraint::Constraint;

/// By how much the potentials pass the bound of a requirement's side: 0 where it has none, and where the requirement
/// isn't active in the branch.
pub(crate) fn requirement_passed(
    requirement: &Requirement,
    side: Side,
    branch: &Branch,
    potentials: &[i64],
) -> u64
    requires nodes { HasNodes requirement.now }
    requires potentials { ArePotentials potentials.now }
    ensures units { result
        ≡ requirement_passed 1 branch.now (time_at potentials.now) side requirement.now }
    ensures most { result ≤ 10_000_000_000_000 }
{
    if !holds(&requirement.guard, branch) {
        return 0;
    }
    match Constraint::of_requirement(side, requirement) {
        Some(constraint) => passed_by(constraint, potentials),
        None => 0,
    }
}

/// By how much the potentials of its nodes pass the bound of a constraint, 0 where they keep it.
pub(crate) fn passed_by(constraint: Constraint, potentials: &[i64]) -> u64
    requires constraint { IsSoundConstraint constraint }
    requires potentials { ArePotentials potentials.now }
    ensures units { result ≡ passed_by 1 (time_at potentials.now) constraint }
    ensures most { result ≤ 10_000_000_000_000 }
{
    let to = potentials[constraint.to as usize];
    let from = potentials[constraint.from as usize];
    excess(to - from - constraint.bound)
}

/// How far a number is above 0: the least number from 0 on that isn't below it.
fn excess(number: i64) -> u64
    ensures above { number ≤ℤ pos result }
    ensures least { (most : ℕ) → number ≤ℤ pos most → result ≤ most }
{
    if number > 0 { number as u64 } else { 0 }
}
