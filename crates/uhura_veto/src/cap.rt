//! What the caps on a side leave of its room.
ghost use Rattle.std.specs.Prelude.{◌≡◌, [], ◌∷◌, All};
ghost use Rattle.uhura_veto.specs.Room.{caps_on, least_with, IsSoundRoom};
ghost use Rattle.uhura_veto.specs.Vetoes.{IsSoundVeto};

use crate::{Room, Veto};
use uhura_plan::{SideKey, is_same_key};

/// The least of a limit and the caps on a side.
pub(crate) fn under_caps(limit: Room, vetoes: &[Veto], key: SideKey) -> Room
    ensures room { result ≡ least_with limit (caps_on key vetoes.now) }
    ensures small { IsSoundRoom limit → All IsSoundVeto vetoes.now → IsSoundRoom result }
{
    let mut room = limit;
    for veto in vetoes {
        room = under_cap(room, veto, key);
    }
    room
}

/// The room that is left where the veto may be a cap on the side.
fn under_cap(room: Room, veto: &Veto, key: SideKey) -> Room
    ensures { result ≡ least_with room (caps_on key (veto.now ∷ [])) }
{
    match veto {
        Veto::Cap {
            key: capped,
            units,
            ..
        } if is_same_key(key, *capped) => at_most(room, u64::from(*units)),
        _ => room,
    }
}

/// The room, but no more than so many units.
fn at_most(room: Room, units: u64) -> Room
    ensures { result ≡ least_with room (units ∷ []) }
{
    match room {
        Room::Units(most) => Room::Units(most.min(units)),
        Room::Unlimited => Room::Units(units),
    }
}
