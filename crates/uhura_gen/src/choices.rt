//! The choices.
ghost use Rattle.std.specs.Prelude.{◌≡◌, ◌%◌, ◌<◌, [], length, OnOk};
ghost use Rattle.uhura_plan.specs.Edits.{with_choice};
ghost use Rattle.uhura_plan.specs.Limits.{IsAmount};
ghost use Rattle.uhura_gen.specs.Draws.{following, after};
ghost use Rattle.uhura_gen.specs.Names.{alternative_name};
ghost use Rattle.uhura_gen.specs.Items.{alternative, choice};
ghost use Rattle.uhura_gen.specs.Generator.{choices};
ghost use Rattle.uhura_gen.specs.Numbered.{IsNumbered};

use crate::answer::unrefused;
use crate::draw::Generator;
use crate::name::{NUMBERS, name_of};
use std::alloc::AllocError;
use uhura_plan::{Name, Plan};

/// How many choices a plan has.
pub(crate) const CHOICES: u32 = 3;

/// Appends the choices to a plan without any.
pub(crate) fn add_choices(plan: &mut Plan, generator: &mut Generator) -> Result<(), AllocError>
    requires none { plan.old.choices ≡ [] }
    requires numbered { IsNumbered plan.old }
    ensures choices { OnOk result (plan.new ≡ record plan.old {
      choices = choices generator.old.x 3;
    }) }
    ensures numbered { OnOk result (IsNumbered plan.new) }
    ensures number { OnOk result (generator.new.x ≡ after generator.old.x 9) }
{
    for place in 0..CHOICES {
        add_choice(plan, generator, place)?;
    }
    Ok(())
}

/// Appends the choice in this place.
fn add_choice(plan: &mut Plan, generator: &mut Generator, place: u32) -> Result<(), AllocError>
    requires numbered { IsNumbered plan.old }
    requires place { length plan.old.choices ≡ place }
    requires few { place < CHOICES }
    ensures choice { OnOk result (plan.new ≡
        with_choice plan.old (choice generator.old.x place)) }
    ensures numbered { OnOk result (IsNumbered plan.new) }
    ensures number { generator.new.x ≡ after generator.old.x 3 }
{
    let alternatives = [
        alternative(generator, 0),
        alternative(generator, 1),
        alternative(generator, 2),
    ];
    unrefused(plan.add_choice(name_of(b'c', place), &alternatives, &[]))
}

/// The alternative in this place of a choice, with its cost.
fn alternative(generator: &mut Generator, place: u32) -> (Name, u32)
    requires { place < NUMBERS }
    ensures name { result.0 ≡ alternative_name place }
    ensures cost { result.1 ≡ following generator.old.x % 30 }
    ensures amount { IsAmount result.1 }
    ensures number { generator.new.x ≡ following generator.old.x }
{
    (name_of(b'a', place), generator.draw(30))
}
