//! The refusals of a choice.
ghost use Rattle.std.specs.Prelude.{◌≡◌, ◌≤◌, length, All};
ghost use Rattle.uhura_plan.specs.declared.limits.TheConstants.{BRANCHES};
ghost use Rattle.uhura_plan.specs.Sound.{alternatives_product};
ghost use Rattle.uhura_plan.specs.Refusals.{choice_refusal};

use super::{carried, reached, repeated_at, repeated_in};
use crate::plan::Plan;
use crate::{ALTERNATIVES, BRANCHES, CHOICES, Choice, EditRefusal, Name};

impl Plan {
    /// The first refusal of a choice, where there is one.
    pub(in crate::plan) fn choice_refusal(
        &self,
        name: Name,
        alternatives: &[(Name, u32)],
        guard: &[(Name, Name)],
    ) -> Option<EditRefusal>
        ensures { result ≡ choice_refusal self.now name alternatives.now guard.now }
    {
        if self.find_choice(name).is_some() {
            return Some(EditRefusal::Taken);
        }
        if repeated_at(alternatives).is_some() {
            return Some(EditRefusal::Taken);
        }
        let count = alternatives.len();
        if let Some(refusal) = self.unknown_in(carried(1 + count), guard) {
            return Some(refusal);
        }
        if let Some(refusal) = repeated_in(guard) {
            return Some(refusal);
        }
        if let Some(refusal) = reached(CHOICES, self.choices()) {
            return Some(refusal);
        }
        if count > ALTERNATIVES as usize {
            return Some(EditRefusal::Full {
                limit: ALTERNATIVES,
                has: carried(count),
            });
        }
        let has = self.alternatives_product() * count as u32;
        if has > BRANCHES {
            return Some(EditRefusal::Full {
                limit: BRANCHES,
                has,
            });
        }
        None
    }

    /// The product of the numbers of alternatives of the choices.
    fn alternatives_product(&self) -> u32
        ensures product { result ≡ alternatives_product self.now.choices }
        ensures few { result ≤ BRANCHES }
    {
        // The plan's invariant bounds the product.
        let _ = &self.choices;
        alternatives_product(self.choices.values().as_slice())
    }
}

/// The product of the numbers of alternatives of these choices.
fn alternatives_product(choices: &[Choice]) -> u32
    requires some { All (λ c. 1 ≤ length c.alternatives) choices.now }
    requires few { alternatives_product choices.now ≤ BRANCHES }
    ensures { result ≡ alternatives_product choices.now }
{
    let mut product = 1;
    for choice in choices {
        product *= choice.alternatives.as_slice().len() as u32;
    }
    product
}
