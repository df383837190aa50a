//! The loosening that is read off potentials.
ghost use Rattle.std.specs.Prelude.{◌≡◌, ◌≤◌, ◌++◌, [], IfOk, length};
ghost use Rattle.uhura_plan.specs.declared.key.Side.{Side};
ghost use Rattle.uhura_plan.specs.declared.key.Side.TheVariants.{Lower, Upper};
ghost use Rattle.uhura_plan.specs.declared.key.SideKey.{SideKey};
ghost use Rattle.uhura_net.specs.Edges.{time_at};
ghost use Rattle.uhura_veto.specs.State.{State};
ghost use Rattle.uhura_worst.specs.Units.{side_units};
ghost use Rattle.uhura_dual.specs.ReadOff.{ArePotentials, requirement_items, some_units, passed_in_items};
ghost use Rattle.uhura_dual.specs.ReadOff.{passed_sides, passed_side, IsAllowedWhereKept, CostsItsExcess};

use crate::passing::{passed_by, requirement_passed};
use std::alloc::{AllocError, Global};
use uhura_choice::Branch;
use uhura_plan::{Item, Plan, Side, SideKey};
use uhura_veto::Vetoes;
use uhura_worst::Loosening;
use uhura_worst::constraint::Constraint;

/// By how much the potentials of the nodes pass the stated bound of each side that is active in the branch: the sides
/// of requirements in the plan's order and then those of durations, of each the lower one first, in whole units. The
/// potentials are within 1,536,000,000,000. Only the answer takes memory.
pub fn loosening(
    alloc: Global,
    plan: &Plan,
    vetoes: &Vetoes,
    branch: &Branch,
    potentials: &[i64],
) -> Result<Loosening, AllocError>
    requires { ArePotentials potentials.now }
    ensures pairs { IfOk result
        (λ pairs. pairs ≡ passed_sides plan.now branch.now potentials.now) }
    ensures units { IfOk result (λ pairs. (key : SideKey) →
        side_units pairs key ≡ passed_side plan.now branch.now (time_at potentials.now) key) }
    ensures allowed { let state : State = record { plan = plan.now; vetoes = vetoes.now } in
        IfOk result (λ pairs. IsAllowedWhereKept state branch.now pairs potentials.now) }
    ensures cost { let state : State = record { plan = plan.now; vetoes = vetoes.now } in
        IfOk result (λ pairs. CostsItsExcess state branch.now pairs potentials.now) }
{
    // A plan is sound.
    let _ = plan.requirements();
    let mut loosening = Loosening::new(alloc);
    add_requirements(&mut loosening, plan, branch, potentials)?;
    add_durations(&mut loosening, plan, branch, potentials)?;
    Ok(loosening)
}

/// Adds the sides of all requirements that the potentials pass.
fn add_requirements(
    loosening: &mut Loosening,
    plan: &Plan,
    branch: &Branch,
    potentials: &[i64],
) -> Result<(), AllocError>
    requires potentials { ArePotentials potentials.now }
    requires none { loosening.old ≡ [] }
    ensures { IfOk result (λ _. loosening.new ≡ passed_in_items plan.now branch.now potentials.now
        (requirement_items plan.now.requirements)) }
{
    for position in 0..plan.requirements() {
        let requirement = plan.requirement(position).unwrap();
        let item = Item::Requirement(requirement.slot);
        let lower = requirement_passed(requirement, Side::Lower, branch, potentials);
        let upper = requirement_passed(requirement, Side::Upper, branch, potentials);
        add_sides(loosening, item, lower, upper)?;
    }
    Ok(())
}

/// Adds those of all durations behind those of the requirements.
fn add_durations(
    loosening: &mut Loosening,
    plan: &Plan,
    branch: &Branch,
    potentials: &[i64],
) -> Result<(), AllocError>
    requires potentials { ArePotentials potentials.now }
    requires requirements { loosening.old ≡ passed_in_items plan.now branch.now potentials.now
        (requirement_items plan.now.requirements) }
    ensures { IfOk result (λ _.
        loosening.new ≡ passed_sides plan.now branch.now potentials.now) }
{
    for duration in 0..plan.uncertains() {
        let uncertain = plan.uncertain(duration).unwrap();
        let item = Item::Uncertain(duration);
        let lower = Constraint::of_duration(Side::Lower, duration, uncertain);
        let upper = Constraint::of_duration(Side::Upper, duration, uncertain);
        let lower = passed_by(lower, potentials);
        let upper = passed_by(upper, potentials);
        add_sides(loosening, item, lower, upper)?;
    }
    Ok(())
}

/// Adds the two sides of an item, those of them that have units.
fn add_sides(
    loosening: &mut Loosening,
    item: Item,
    lower: u64,
    upper: u64,
) -> Result<(), AllocError>
    requires fresh { (side : Side) →
        side_units loosening.old (record { item = item; side = side }) ≡ 0 }
    requires lower { lower ≤ 10_000_000_000_000 }
    requires upper { upper ≤ 10_000_000_000_000 }
    ensures { IfOk result (λ _. loosening.new ≡ (loosening.old
        ++ some_units (record { item = item; side = Lower }) lower)
        ++ some_units (record { item = item; side = Upper }) upper) }
{
    let key = SideKey {
        item,
        side: Side::Lower,
    };
    add_side(loosening, key, lower)?;
    let key = SideKey {
        item,
        side: Side::Upper,
    };
    add_side(loosening, key, upper)
}

/// Adds a side, where it has units.
fn add_side(loosening: &mut Loosening, key: SideKey, units: u64) -> Result<(), AllocError>
    requires fresh { side_units loosening.old key ≡ 0 }
    requires units { units ≤ 10_000_000_000_000 }
    ensures { IfOk result (λ _. loosening.new ≡ loosening.old ++ some_units key units) }
{
    if units > 0 {
        loosening.add(key, units)?;
    }
    Ok(())
}
