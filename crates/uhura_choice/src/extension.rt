//! The prefixes that are one entry longer.
ghost use Rattle.std.specs.Prelude.{◌≡◌, ◌<◌, length, slice_get, Some, if◌then◌else◌};
ghost use Rattle.uhura_plan.specs.Sound.{IsSound};
ghost use Rattle.uhura_choice.specs.Branch.{is_active};
ghost use Rattle.uhura_choice.specs.Children.{children};

use crate::{Pick, Prefix, active, holds};
use uhura_plan::Plan;

/// The number of prefixes that are one entry longer: 0 exactly for a whole branch.
pub fn children(plan: &Plan, prefix: &Prefix) -> u32
    ensures { result ≡ length (children plan.now.choices prefix.now) }
{
    let Some(choice) = plan.choice(prefix.entries().len() as u32) else {
        return 0;
    };
    if holds(&choice.guard, prefix) {
        choice.alternatives.as_slice().len() as u32
    } else {
        1
    }
}

/// The prefix that is one entry longer and has so many before it.
pub fn child(plan: &Plan, prefix: &Prefix, index: u32) -> Prefix
    requires { index < length (children plan.now.choices prefix.now) }
    ensures { slice_get (children plan.now.choices prefix.now) index ≡ Some result }
{
    let place = prefix.entries().len();
    let mut longer = prefix.front(place);
    longer.push(entry(plan, prefix, place as u32, index));
    longer
}

/// The alternative, by its place in the choice at this place, where that choice is active after the prefix, and
/// nothing where it isn't.
pub(crate) fn entry(plan: &Plan, prefix: &Prefix, choice: u32, alternative: u32) -> Pick
    ensures entry { result ≡ (if is_active plan.now.choices prefix.now choice
        then Pick.Alternative alternative else Pick.Inactive) }
    ensures sound { IsSound plan.now }
{
    // By its type the plan is sound.
    let _ = plan.choices();
    if active(plan, prefix, choice) {
        Pick::Alternative(alternative)
    } else {
        Pick::Inactive
    }
}
