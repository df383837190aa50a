//! Whether the sides of a proposal have room.
ghost use Rattle.std.specs.Prelude.{◌≡◌, ◌≤◌, ℕ, ℤ, List, All, MatchOption};
ghost use Rattle.std.specs.Bool.{Decides};
ghost use Rattle.uhura_choice.specs.declared.prefix.Pick.{Pick};
ghost use Rattle.uhura_veto.specs.Room.{IsWithinRoom, width_of};
ghost use Rattle.uhura_relax.specs.Schedule.{proposal_with};
ghost use Rattle.uhura_check.specs.Conditions.{LeavesSomeAt, HasRoom};
ghost use Rattle.uhura_check.specs.Firsts.{IsFirstNot};
ghost use Rattle.uhura_check.specs.Picks.{IsNarrowed};

use crate::active::is_active_item;
use crate::keys::duration_side;
use uhura_choice::Branch;
use uhura_command::State;
use uhura_plan::{Item, Plan, Side, SideKey, Uncertain};
use uhura_veto::Room;
use uhura_veto::rooms::room;
use uhura_worst::Loosening;

/// Whether a side that is loosened or narrowed is one of an active item, has room for its units, and leaves some
/// lengths.
fn has_room(state: &State, branch: &Branch, loosening: &Loosening, side: (SideKey, u64)) -> bool
    ensures { (times : ℕ → ℤ) → Decides result
        (HasRoom state.now (proposal_with branch.now loosening.now times) side) }
{
    is_active_item(&state.plan, branch, side.0.item)
        && is_within(room(&state.plan, &state.vetoes, side.0), side.1)
        && leaves_some_at(&state.plan, loosening, side.0)
}

/// The place of the first side that has no room, where there is one.
pub(crate) fn first_without_room(
    state: &State,
    branch: &Branch,
    loosening: &Loosening,
) -> Option<usize>
    ensures { (times : ℕ → ℤ) → MatchOption result
        (All (HasRoom state.now (proposal_with branch.now loosening.now times)) loosening.now)
        (IsFirstNot (HasRoom state.now (proposal_with branch.now loosening.now times))
        loosening.now) }
{
    let pairs = loosening.pairs();
    for place in 0..pairs.len() {
        if !has_room(state, branch, loosening, pairs[place]) {
            return Some(place);
        }
    }
    None
}

/// Whether the units lie within the room.
fn is_within(room: Room, units: u64) -> bool
    ensures { Decides result (IsWithinRoom 1 room units) }
{
    match room {
        Room::Units(most) => units <= most,
        Room::Unlimited => true,
    }
}

/// Whether the range left isn't empty, where the side is a duration's upper one.
fn leaves_some_at(plan: &Plan, loosening: &Loosening, key: SideKey) -> bool
    ensures { (branch : List Pick) (times : ℕ → ℤ) → Decides result
        (LeavesSomeAt plan.now (proposal_with branch loosening.now times) key.side key.item) }
{
    // By its type the plan is sound.
    let _ = plan.uncertains();
    match (key.side, key.item) {
        (Side::Upper, Item::Uncertain(duration)) => match plan.uncertain(duration) {
            Some(uncertain) => {
                let low = duration_side(duration, Side::Lower);
                let high = duration_side(duration, Side::Upper);
                leaves_some(uncertain, loosening.units(low), loosening.units(high))
            }
            None => true,
        },
        _ => true,
    }
}

/// Whether a range isn't empty when it is narrowed by so many units from below and from above.
fn leaves_some(uncertain: &Uncertain, lower: u64, upper: u64) -> bool
    requires lower { lower ≤ 10_000_000_000_000 }
    requires upper { upper ≤ 10_000_000_000_000 }
    ensures { Decides result (IsNarrowed uncertain.now lower upper) }
{
    lower + upper <= width(uncertain)
}

/// How wide the range of a duration is.
fn width(uncertain: &Uncertain) -> u64
    ensures { result ≡ width_of uncertain.now }
{
    uncertain.upper.abs_diff(uncertain.lower)
}
