//! What is active after some picks.
ghost use Rattle.std.specs.Prelude.{◌≡◌};
ghost use Rattle.uhura_choice.specs.Branch.{is_picked, holds, is_active};

use crate::{Pick, Prefix};
use uhura_plan::{Guard, Literal, Plan};

/// Whether every literal of the guard is picked in the prefix.
pub fn holds(guard: &Guard, prefix: &Prefix) -> bool
    ensures { result ≡ holds guard.now prefix.now }
{
    all_picked(guard.literals(), prefix.entries())
}

/// Whether the guard of the choice at this place holds in the prefix, which is to have an entry for each choice
/// before it. There is none behind the last choice.
pub fn active(plan: &Plan, prefix: &Prefix, choice: u32) -> bool
    ensures { result ≡ is_active plan.now.choices prefix.now choice }
{
    match plan.choice(choice) {
        Some(choice) => holds(&choice.guard, prefix),
        None => false,
    }
}

/// Whether each of the literals is picked.
fn all_picked(literals: &[Literal], picks: &[Pick]) -> bool
    ensures { result ≡ holds literals.now picks.now }
{
    literals.iter().all(|literal| is_picked(picks, *literal))
}

/// Whether the pick of the literal's choice is its alternative.
fn is_picked(picks: &[Pick], literal: Literal) -> bool
    ensures { result ≡ is_picked picks.now literal }
{
    match picks.get(literal.choice as usize) {
        Some(Pick::Alternative(alternative)) => literal.alternative == *alternative,
        _ => false,
    }
}
