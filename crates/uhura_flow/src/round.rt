//! Room for a cycle.
ghost use Rattle.std.specs.Prelude.{◌≡◌, ◌+◌, ◌<◌, ◌≤◌, ◌∷◌, length, take, vec_len};
ghost use Rattle.uhura_net.specs.declared.edge.TheConstants.{NODES};

use std::alloc::{AllocError, Global};
use uhura_net::{NODES, Place};

/// Room for the steps of a cycle. Only `new` takes memory.
#[derive(Debug, Drop)]
pub(crate) struct Round {
    pub(crate) places: Vec<Place>,
    pub(crate) backward: Vec<bool>,
    ghost place_room: { vec_len places ≡ NODES + 1 },
    ghost backward_room: { vec_len backward ≡ NODES + 1 },
}

impl Round {
    /// Room for any cycle.
    pub(crate) fn new(alloc: Global) -> Result<Round, AllocError> {
        Ok(Round {
            places: vec![in alloc; Place(0); NODES + 1]?,
            backward: vec![in alloc; false; NODES + 1]?,
        })
    }
}

/// Writes a step and a walk behind it to the front of the room.
pub(crate) fn join(
    round_places: &mut [Place],
    round_backward: &mut [bool],
    place: Place,
    back: bool,
    places: &[Place],
    backward: &[bool],
)
    requires steps { length backward.now ≡ length places.now }
    requires place_room { length places.now < length round_places.old }
    requires backward_room { length places.now < length round_backward.old }
    ensures places { take (length places.now + 1) round_places.new ≡ place ∷ places.now }
    ensures backward { take (length places.now + 1) round_backward.new ≡ back ∷ backward.now }
    ensures place_room { length round_places.new ≡ length round_places.old }
    ensures backward_room { length round_backward.new ≡ length round_backward.old }
{
    round_places[0] = place;
    round_backward[0] = back;
    for (step, place) in places.iter().enumerate() {
        round_places[step + 1] = *place;
        round_backward[step + 1] = backward[step];
    }
}
