//! The durations.
ghost use Rattle.std.specs.Prelude.{◌≡◌, ◌*◌, ◌<◌, ◌≤◌, [], length, OnOk};
ghost use Rattle.uhura_plan.specs.Edits.{with_uncertain};
ghost use Rattle.uhura_gen.specs.Draws.{after};
ghost use Rattle.uhura_gen.specs.Items.{duration, plain_rate};
ghost use Rattle.uhura_gen.specs.Generator.{durations};
ghost use Rattle.uhura_gen.specs.Numbered.{IsNumbered};

use crate::answer::unrefused;
use crate::draw::Generator;
use crate::name::name_of;
use std::alloc::AllocError;
use uhura_plan::{Plan, Rate};

/// Appends so many durations to a plan without any, each from every fourth controllable event.
pub(crate) fn add_durations(
    plan: &mut Plan,
    generator: &mut Generator,
    count: u32,
) -> Result<(), AllocError>
    requires none { plan.old.uncertains ≡ [] }
    requires numbered { IsNumbered plan.old }
    requires events { 4 * count ≤ length plan.old.events }
    requires few { length plan.old.events ≤ 256 }
    ensures durations { OnOk result (plan.new ≡ record plan.old {
      uncertains = durations generator.old.x count;
    }) }
    ensures numbered { OnOk result (IsNumbered plan.new) }
    ensures number { OnOk result (generator.new.x ≡ after generator.old.x (4 * count)) }
{
    for place in 0..count {
        add_duration(plan, generator, place)?;
    }
    Ok(())
}

/// Appends the duration in this place.
fn add_duration(plan: &mut Plan, generator: &mut Generator, place: u32) -> Result<(), AllocError>
    requires numbered { IsNumbered plan.old }
    requires place { length plan.old.uncertains ≡ place }
    requires event { 4 * place < length plan.old.events }
    requires few { length plan.old.events ≤ 256 }
    ensures duration { OnOk result (plan.new ≡
        with_uncertain plan.old (duration generator.old.x place)) }
    ensures numbered { OnOk result (IsNumbered plan.new) }
    ensures number { generator.new.x ≡ after generator.old.x 4 }
{
    let span = generator.span(20, 20);
    unrefused(plan.add_uncertain(
        name_of(b'u', place),
        name_of(b'e', 4 * place),
        name_of(b'f', place),
        span.lower,
        span.upper,
        Some(plain_rate(span.lower_price)),
        Some(plain_rate(span.upper_price)),
    ))
}

/// The rate of this price, without a second one.
fn plain_rate(first: u32) -> Rate
    ensures { result ≡ plain_rate first }
{
    Rate {
        first,
        second: None,
    }
}
