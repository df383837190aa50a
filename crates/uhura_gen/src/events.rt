//! The controllable events.
ghost use Rattle.std.specs.Prelude.{◌≡◌, ◌+◌, ◌<◌, ◌≤◌, OnOk};
ghost use Rattle.uhura_plan.specs.Lists.{empty};
ghost use Rattle.uhura_gen.specs.Generator.{plan_of_events};

use crate::answer::unrefused;
use crate::name::name_of;
use std::alloc::AllocError;
use uhura_plan::Plan;

/// Appends so many controllable events to the empty plan.
pub(crate) fn add_events(plan: &mut Plan, count: u32) -> Result<(), AllocError>
    requires empty { plan.old ≡ empty }
    requires few { count ≤ 256 }
    ensures { OnOk result (plan.new ≡ plan_of_events count) }
{
    for place in 0..count {
        add_event(plan, place)?;
    }
    Ok(())
}

/// Appends the controllable event in this place.
fn add_event(plan: &mut Plan, place: u32) -> Result<(), AllocError>
    requires earlier { plan.old ≡ plan_of_events place }
    requires few { place < 256 }
    ensures { OnOk result (plan.new ≡ plan_of_events (place + 1)) }
{
    unrefused(plan.add_event(name_of(b'e', place)))
}
