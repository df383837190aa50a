//! The requirements.
ghost use Rattle.std.specs.Prelude.{◌≡◌, ◌+◌, ◌-◌, ◌*◌, ◌/◌, ◌<◌, ◌≤◌, ◌++◌, [], length, OnOk};
ghost use Rattle.uhura_plan.specs.Limits.{IsBound, IsUnitPrice, AreWithinLimits};
ghost use Rattle.uhura_plan.specs.Edits.{with_requirement};
ghost use Rattle.uhura_gen.specs.Draws.{after};
ghost use Rattle.uhura_gen.specs.Items.{priced, unbounded, step, stop, whole};
ghost use Rattle.uhura_gen.specs.Generator.{steps, stops};
ghost use Rattle.uhura_gen.specs.Numbered.{IsNumbered, HasRequirements};

use crate::answer::unrefused;
use crate::choices::CHOICES;
use crate::draw::Generator;
use crate::name::{name_of, whole_name};
use std::alloc::AllocError;
use uhura_plan::{Bounded, Plan, Price};

/// Appends the requirements between neighbouring controllable events, of which there are so many, to a
/// plan without requirements.
pub(crate) fn add_steps(
    plan: &mut Plan,
    generator: &mut Generator,
    events: u32,
) -> Result<(), AllocError>
    requires none { plan.old.requirements ≡ [] }
    requires numbered { IsNumbered plan.old }
    requires some { 1 ≤ events }
    requires events { length plan.old.events ≡ events }
    requires few { events ≤ 256 }
    ensures steps { OnOk result (plan.new ≡ record plan.old {
      requirements = steps generator.old.x (events - 1);
    }) }
    ensures numbered { OnOk result (IsNumbered plan.new) }
    ensures names { OnOk result (HasRequirements plan.new (events - 1) 0) }
    ensures number { OnOk result (generator.new.x ≡ after generator.old.x (4 * (events - 1))) }
{
    for place in 0..events - 1 {
        add_step(plan, generator, place)?;
    }
    Ok(())
}

/// Appends the requirement from the controllable event in this place to the next one.
fn add_step(plan: &mut Plan, generator: &mut Generator, place: u32) -> Result<(), AllocError>
    requires numbered { IsNumbered plan.old }
    requires names { HasRequirements plan.old place 0 }
    requires events { place + 1 < length plan.old.events }
    requires few { length plan.old.events ≤ 256 }
    ensures step { OnOk result (plan.new ≡
        with_requirement plan.old (step generator.old.x place)) }
    ensures numbered { OnOk result (IsNumbered plan.new) }
    ensures names { OnOk result (HasRequirements plan.new (place + 1) 0) }
    ensures number { generator.new.x ≡ after generator.old.x 4 }
{
    let span = generator.span(10, 40);
    unrefused(plan.add_requirement(
        name_of(b'r', place + 1),
        name_of(b'e', place),
        name_of(b'e', place + 1),
        priced(span.lower, span.lower_price),
        priced(span.upper, span.upper_price),
        &[],
    ))
}

/// A bound that may be loosened by any number of units, each at this price.
fn priced(bound: i64, price: u32) -> Bounded
    requires bound { IsBound bound }
    requires price { IsUnitPrice price }
    ensures side { result ≡ priced bound price }
    ensures within { AreWithinLimits result }
{
    let price = Price {
        rate: price,
        second: None,
        most: None,
    };
    Bounded {
        bound: Some(bound),
        price: Some(price),
    }
}

/// A side without a bound.
fn unbounded() -> Bounded
    ensures side { result ≡ unbounded }
    ensures within { AreWithinLimits result }
{
    Bounded {
        bound: None,
        price: None,
    }
}

/// Appends the requirements on the ends of the durations, of which there are so many.
pub(crate) fn add_stops(
    plan: &mut Plan,
    generator: &mut Generator,
    count: u32,
) -> Result<(), AllocError>
    requires numbered { IsNumbered plan.old }
    requires names { HasRequirements plan.old (length plan.old.events - 1) 0 }
    requires choices { length plan.old.choices ≡ 3 }
    requires durations { length plan.old.uncertains ≡ count }
    requires events { length plan.old.events ≡ 4 * count }
    requires few { length plan.old.events ≤ 256 }
    ensures stops { OnOk result (plan.new ≡ record plan.old {
      requirements =
          plan.old.requirements ++ stops generator.old.x (length plan.old.events - 1) count;
    }) }
    ensures numbered { OnOk result (IsNumbered plan.new) }
    ensures names { OnOk result (HasRequirements plan.new (length plan.old.events - 1) count) }
    ensures number { OnOk result (generator.new.x ≡ after generator.old.x (5 * count)) }
{
    for place in 0..count {
        add_stop(plan, generator, place)?;
    }
    Ok(())
}

/// Appends the requirement on the end of the duration in this place, under a literal.
fn add_stop(plan: &mut Plan, generator: &mut Generator, place: u32) -> Result<(), AllocError>
    requires numbered { IsNumbered plan.old }
    requires names { HasRequirements plan.old (length plan.old.events - 1) place }
    requires choices { length plan.old.choices ≡ 3 }
    requires duration { place < length plan.old.uncertains }
    requires durations { length plan.old.uncertains ≤ 256 }
    requires event { 4 * place + 3 < length plan.old.events }
    requires few { length plan.old.events ≤ 256 }
    ensures stop { OnOk result (plan.new ≡ with_requirement plan.old
        (stop generator.old.x (length plan.old.events - 1 + place) place)) }
    ensures numbered { OnOk result (IsNumbered plan.new) }
    ensures names { OnOk result
        (HasRequirements plan.new (length plan.old.events - 1) (place + 1)) }
    ensures number { generator.new.x ≡ after generator.old.x 5 }
{
    let span = generator.span(10, 30);
    let pick = generator.draw(3);
    let choice = name_of(b'c', place % CHOICES);
    let alternative = name_of(b'a', pick);
    unrefused(plan.add_requirement(
        name_of(b's', place),
        name_of(b'f', place),
        name_of(b'e', 4 * place + 3),
        priced(span.lower, span.lower_price),
        priced(span.upper, span.upper_price),
        &[(choice, alternative)],
    ))
}

/// Appends the requirement from the first to the last of the controllable events, of which there are so
/// many.
pub(crate) fn add_whole(
    plan: &mut Plan,
    generator: &mut Generator,
    events: u32,
) -> Result<(), AllocError>
    requires numbered { IsNumbered plan.old }
    requires names { HasRequirements plan.old (events - 1) (events / 4) }
    requires some { 2 ≤ events }
    requires events { length plan.old.events ≡ events }
    requires few { events ≤ 256 }
    ensures { OnOk result (plan.new ≡ with_requirement plan.old
        (whole generator.old.x (events - 1 + events / 4) events)) }
{
    let bound = generator.draw(10 * events) as i64;
    let price = generator.price(50);
    unrefused(plan.add_requirement(
        whole_name(),
        name_of(b'e', 0),
        name_of(b'e', events - 1),
        unbounded(),
        priced(bound, price),
        &[],
    ))
}
