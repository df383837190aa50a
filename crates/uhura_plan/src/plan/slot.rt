//! The least slot that no requirement has.
ghost use Rattle.std.specs.Prelude.{◌≡◌, ◌<◌, [], not, false, length, replicate, position, All};
ghost use Rattle.uhura_plan.specs.declared.limits.TheConstants.{REQUIREMENTS};
ghost use Rattle.uhura_plan.specs.Edits.{IsLeastFree};
ghost use Rattle.uhura_plan.specs.Slots.{MarksSlots};

use crate::{REQUIREMENTS, Requirement};

/// The number of slots.
const SLOTS: usize = REQUIREMENTS as usize;

/// The least slot that none of these requirements has.
pub(super) fn least_free_slot(requirements: &[Requirement]) -> u32
    requires few { length requirements.now < REQUIREMENTS }
    requires slots { All (λ r. r.slot < REQUIREMENTS) requirements.now }
    ensures least { IsLeastFree requirements.now result }
    ensures below { result < REQUIREMENTS }
{
    let mut used = [false; SLOTS];
    mark_slots(requirements, &mut used);
    first_unused(&used).unwrap() as u32
}

/// Marks the slots that these requirements have.
fn mark_slots(requirements: &[Requirement], used: &mut [bool; SLOTS])
    requires none { used.old ≡ replicate REQUIREMENTS false }
    requires slots { All (λ r. r.slot < REQUIREMENTS) requirements.now }
    ensures { MarksSlots requirements.now used.new }
{
    for requirement in requirements {
        used[requirement.slot as usize] = true;
    }
}

/// The first place that isn't marked.
fn first_unused(used: &[bool]) -> Option<usize>
    ensures { result ≡ position not used.now }
{
    used.iter().position(|used| !used)
}
