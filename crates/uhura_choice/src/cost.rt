//! What picks cost.
ghost use Rattle.std.specs.Prelude.{◌≡◌, ◌≤◌};
ghost use Rattle.uhura_choice.specs.Branch.{pick_cost, cost_at, picked_cost};

use crate::{Pick, Prefix};
use uhura_plan::{Choice, Plan};

/// The costs of the picks in the prefix together.
pub fn picked_cost(plan: &Plan, prefix: &Prefix) -> u64
    ensures { result ≡ picked_cost plan.now.choices prefix.now }
{
    let picks = prefix.entries();
    let mut cost = 0;
    for place in 0..picks.len() as u32 {
        cost += cost_at(plan, picks, place);
    }
    cost
}

/// What the pick at this place costs, and nothing where there is no such pick or no such choice.
fn cost_at(plan: &Plan, picks: &[Pick], place: u32) -> u64
    ensures cost { result ≡ cost_at plan.now.choices picks.now place }
    ensures small { result ≤ 4294967295 }
{
    let Some(choice) = plan.choice(place) else {
        return 0;
    };
    match picks.get(place as usize) {
        Some(pick) => pick_cost(choice, *pick),
        None => 0,
    }
}

/// What a pick of this choice costs, and nothing where the choice has no such alternative.
fn pick_cost(choice: &Choice, pick: Pick) -> u64
    ensures cost { result ≡ pick_cost choice.now pick }
    ensures small { result ≤ 4294967295 }
{
    match pick {
        Pick::Alternative(alternative) => alternative_cost(choice, alternative),
        Pick::Inactive => 0,
    }
}

/// What this alternative of the choice costs, and nothing where there is none.
fn alternative_cost(choice: &Choice, alternative: u32) -> u64
    ensures cost { result ≡ pick_cost choice.now (Pick.Alternative alternative) }
    ensures small { result ≤ 4294967295 }
{
    match choice.alternatives.as_slice().get(alternative as usize) {
        Some((_, cost)) => u64::from(*cost),
        None => 0,
    }
}
