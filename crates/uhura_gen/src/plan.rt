//! A plan from a number.
ghost use Rattle.std.specs.Prelude.{◌≡◌, IfOk};
ghost use Rattle.uhura_gen.specs.Generator.{IsSeed, IsEventCount, generated};

use crate::choices::add_choices;
use crate::draw::Generator;
use crate::durations::add_durations;
use crate::events::add_events;
use crate::requirements::{add_steps, add_stops, add_whole};
use std::alloc::{AllocError, Global};
use uhura_plan::Plan;

/// The plan of so many controllable events, from 4 to 256 and a multiple of 4, that the number gives, from 1 to
/// 2,147,483,646: events in a row, a duration at each fourth, three choices of three alternatives, and
/// requirements between neighbours, from the durations' ends and from the first event to the last. Draws are those
/// of Park and Miller's generator with the multiplier 48271.
pub fn plan_of(alloc: Global, number: u32, events: u32) -> Result<Plan, AllocError>
    requires number { IsSeed number }
    requires events { IsEventCount events }
    ensures { IfOk result (λ plan. plan ≡ generated number events) }
{
    let mut plan = Plan::new(alloc)?;
    let mut generator = Generator { x: number };
    add_events(&mut plan, events)?;
    add_durations(&mut plan, &mut generator, events / 4)?;
    add_choices(&mut plan, &mut generator)?;
    add_steps(&mut plan, &mut generator, events)?;
    add_stops(&mut plan, &mut generator, events / 4)?;
    add_whole(&mut plan, &mut generator, events)?;
    Ok(plan)
}
