//! The guards by slot, and which slots get another.
ghost use Rattle.std.specs.Prelude.{◌≡◌, ◌≢◌, ◌<◌, IsFalse, false, length, replicate, slice_set};
ghost use Rattle.std.specs.Bool.{Decides, MatchBool};
ghost use Rattle.uhura_plan.specs.declared.limits.TheConstants.{REQUIREMENTS};
ghost use Rattle.uhura_search.specs.Guards.{HaveGuardsOf, guard_at};
ghost use Rattle.uhura_search.specs.Refilled.{AreReguarded, IsNoneMarked};

use uhura_plan::{Guard, Plan, Requirement};

/// Writes the guards of the plan's requirements at their slots, marks each slot that had another, and tells whether
/// there is one.
pub(crate) fn reguard(guards: &mut [Guard], marks: &mut [bool], plan: &Plan) -> bool
    requires slots { length guards.old ≡ REQUIREMENTS }
    requires none { marks.old ≡ replicate REQUIREMENTS false }
    ensures guards { HaveGuardsOf guards.new plan.now.requirements }
    ensures marks { AreReguarded guards.old guards.new marks.new }
    ensures none { IsFalse result → IsNoneMarked marks.new }
{
    let mut any = false;
    for position in 0..plan.requirements() {
        let differs = write_guard(guards, marks, plan.requirement(position).unwrap());
        any = any || differs;
    }
    any
}

/// Writes the guard of a requirement at its slot, marks the slot where it had another, and tells whether it had.
fn write_guard(guards: &mut [Guard], marks: &mut [bool], requirement: &Requirement) -> bool
    requires slots { length guards.old ≡ REQUIREMENTS }
    requires marks { length marks.old ≡ REQUIREMENTS }
    requires slot { requirement.now.slot < REQUIREMENTS }
    ensures guards { guards.new ≡ slice_set guards.old requirement.now.slot requirement.now.guard }
    ensures marks { marks.new ≡ slice_set marks.old requirement.now.slot result }
    ensures differs { MatchBool result
        (guard_at guards.old requirement.now.slot ≢ requirement.now.guard)
        (guard_at guards.old requirement.now.slot ≡ requirement.now.guard) }
{
    let slot = requirement.slot as usize;
    let differs = !is_same(&guards[slot], &requirement.guard);
    marks[slot] = differs;
    guards[slot] = requirement.guard;
    differs
}

/// Whether the guards have the same literals in the same order.
fn is_same(one: &Guard, other: &Guard) -> bool
    ensures { Decides result (one.now ≡ other.now) }
{
    one.literals() == other.literals()
}
