//! The prefix that the words of a leaf name.
ghost use Rattle.std.specs.Prelude.{◌≡◌, ◌<◌, List, MatchOption, IfOk, length};
ghost use Rattle.uhura_choice.specs.declared.prefix.Pick.{Pick};
ghost use Rattle.uhura_cert.specs.Taking.{IsPickAt};
ghost use Rattle.uhura_cert.specs.Machine.{ArePicksNamed};

use std::alloc::{AllocError, Global};
use uhura_choice::Pick;
use uhura_plan::{Name, Plan};

/// What is picked of the choice at a place by this name.
#[tactic(auto, using(crate::proofs::PrefixNames::inactive_at, crate::proofs::PrefixNames::alternative_at, crate::proofs::PrefixNames::no_alternative))]
fn find_pick(plan: &Plan, place: u32, name: Option<Name>) -> Option<Pick>
    requires { place < length plan.now.choices }
    ensures { MatchOption result
        ((pick : Pick) → IsPickAt plan.now.choices place name pick → ⊥)
        (IsPickAt plan.now.choices place name) }
{
    match name {
        None => Some(Pick::Inactive),
        Some(name) => match plan.find_alternative(place, name) {
            Some(alternative) => Some(Pick::Alternative(alternative)),
            None => None,
        },
    }
}

/// What is picked of the first choices by these names. `None` where that is nothing.
pub(crate) fn find_prefix(
    alloc: Global,
    plan: &Plan,
    names: &[Option<Name>],
) -> Result<Option<Vec<Pick>>, AllocError>
    ensures { IfOk result (λ found. MatchOption found
        ((prefix : List Pick) → ArePicksNamed plan.now.choices names.now prefix → ⊥)
        (λ picks. ArePicksNamed plan.now.choices names.now picks.items)) }
{
    let mut picks = Vec::new(alloc);
    let choices = plan.choices();
    for place in 0..names.len() {
        if place >= choices as usize {
            return Ok(None);
        }
        let Some(pick) = find_pick(plan, place as u32, names[place]) else {
            return Ok(None);
        };
        picks.push(pick)?;
    }
    Ok(Some(picks))
}
