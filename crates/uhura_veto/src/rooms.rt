//! The rooms of the sides of a plan under vetoes.
ghost use Rattle.std.specs.Prelude.{◌≡◌, ℕ, option_to_list};
ghost use Rattle.uhura_plan.specs.Limits.{AreWithinLimits, IsAmount, IsPrice};
ghost use Rattle.uhura_plan.specs.Sound.{IsSoundUncertain};
ghost use Rattle.uhura_veto.specs.Room.{least_of, width_of, room_of, requirement_room};
ghost use Rattle.uhura_veto.specs.Room.{duration_room, IsSoundRoom};

use crate::cap::under_caps;
use crate::{Room, Vetoes};
use uhura_plan::{Item, Plan, Price, Requirement, Side, SideKey, Uncertain};

/// The room of a side: none where the plan has no such item.
pub fn room(plan: &Plan, vetoes: &Vetoes, key: SideKey) -> Room
    ensures { result ≡ room_of plan.now vetoes.now key }
{
    match key.item {
        Item::Requirement(slot) => match plan.requirement_in(slot) {
            Some(requirement) => requirement_room(vetoes, key.side, requirement),
            None => Room::Units(0),
        },
        Item::Uncertain(duration) => match plan.uncertain(duration) {
            Some(uncertain) => duration_room(vetoes, duration, key.side, uncertain),
            None => Room::Units(0),
        },
    }
}

/// The room of a requirement's side: none without a bound or a price, else the least of its greatest loosening and
/// the caps on it.
pub fn requirement_room(vetoes: &Vetoes, side: Side, requirement: &Requirement) -> Room
    ensures room { result ≡ requirement_room vetoes.now side requirement.now }
    ensures small { AreWithinLimits requirement.now.lower →
        AreWithinLimits requirement.now.upper → IsSoundRoom result }
{
    let bounded = requirement.bounded(side);
    let key = SideKey {
        item: Item::Requirement(requirement.slot),
        side,
    };
    match (bounded.bound, bounded.price) {
        (Some(_), Some(price)) => under_caps(limit(price), vetoes.items(), key),
        _ => Room::Units(0),
    }
}

/// The room of a side of the duration in this place: none without a rate, else the least of the width of its range
/// and the caps on it.
pub fn duration_room(vetoes: &Vetoes, duration: u32, side: Side, uncertain: &Uncertain) -> Room
    ensures room { result ≡ duration_room vetoes.now duration side uncertain.now }
    ensures small { (events : ℕ) → IsSoundUncertain events uncertain.now → IsSoundRoom result }
{
    let key = SideKey {
        item: Item::Uncertain(duration),
        side,
    };
    match uncertain.rate(side) {
        Some(_) => under_caps(Room::Units(width(uncertain)), vetoes.items(), key),
        None => Room::Units(0),
    }
}

/// What a price limits the loosening to.
fn limit(price: Price) -> Room
    ensures limit { result ≡ least_of (option_to_list price.most) }
    ensures small { IsPrice price → IsSoundRoom result }
{
    match price.most {
        Some(most) => Room::Units(u64::from(most)),
        None => Room::Unlimited,
    }
}

/// How wide the range of a duration is.
fn width(uncertain: &Uncertain) -> u64
    ensures width { result ≡ width_of uncertain.now }
    ensures small { (events : ℕ) → IsSoundUncertain events uncertain.now → IsAmount result }
{
    uncertain.upper.abs_diff(uncertain.lower)
}
