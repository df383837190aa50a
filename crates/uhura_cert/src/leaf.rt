//! The first line of a leaf.
ghost use Rattle.std.specs.Prelude.{◌≡◌, ◌≤◌, ◌<◌, Some, length, slice_get, IfOk};
ghost use Rattle.uhura_cert.specs.Document.{IsPickOf, ArePicks};
ghost use Rattle.uhura_cert.specs.Items.{picked_name, picked_names};

use std::alloc::{AllocError, Global};
use uhura_choice::Pick;
use uhura_item::Picks;
use uhura_plan::{Choice, Name, Plan};

/// What is picked of a choice.
fn picked_name(choice: &Choice, pick: Pick) -> Option<Name>
    requires { IsPickOf choice.now pick }
    ensures { result ≡ picked_name choice.now pick }
{
    match pick {
        Pick::Alternative(alternative) => {
            Some(choice.alternatives.as_slice()[alternative as usize].0)
        }
        Pick::Inactive => None,
    }
}

/// The choice at a place.
fn choice_at(plan: &Plan, place: u32) -> &Choice
    requires { place < length plan.now.choices }
    ensures { slice_get plan.now.choices place ≡ Some result.now }
{
    plan.choice(place).unwrap()
}

/// What is picked of the first choices.
pub(crate) fn picked_names(alloc: Global, plan: &Plan, picks: &[Pick]) -> Result<Picks, AllocError>
    requires picks { ArePicks plan.now.choices picks.now }
    requires few { length picks.now ≤ 16 }
    ensures { IfOk result (λ names. names ≡ picked_names plan.now.choices picks.now) }
{
    let mut names = Vec::new(alloc);
    for place in 0..picks.len() as u32 {
        let choice = choice_at(plan, place);
        names.push(picked_name(choice, picks[place as usize]))?;
    }
    Ok(Picks::from_vec(names))
}
