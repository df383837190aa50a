//! Why there is no schedule.
use std::alloc::AllocError;
use thiserror::Error;
use uhura_net::Place;

/// Why a branch has no schedule with the units given.
#[derive(Debug, Drop, Error)]
pub enum RelaxRefusal {
    /// The loosened bounds clash: those at the places of this closed walk, in order, sum below 0. An edge of a side
    /// is named by its firm place, whether or not an edge of the worst case stands there.
    #[error("the bounds on a closed walk sum below 0")]
    Broken { cycle: Vec<Place> },
    /// Memory ran out.
    #[error("{0}")]
    Memory(AllocError),
}

impl From<AllocError> for RelaxRefusal {
    ghost use Rattle.std.specs.Prelude.{◌≡◌};
    ghost use Rattle.uhura_relax.specs.declared.refusal.RelaxRefusal.TheVariants.{Memory};

    ghost from_gives = { λ error refusal. refusal ≡ Memory error };

    fn from(error: AllocError) -> RelaxRefusal {
        RelaxRefusal::Memory(error)
    }
}
