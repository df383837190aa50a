//! A schedule.
ghost use Rattle.std.specs.Prelude.{◌≡◌, ◌≤◌, IfOk, length, map, take, unsigned_abs, slice_get};

use std::alloc::{AllocError, Global};
use std::marker::Model;

/// One time for each controllable event, from 0 on.
#[derive(Debug, Drop)]
pub struct Schedule {
    pub(crate) times: Vec<u64>,
}

impl Model for Schedule {
    ghost use Rattle.std.specs.Prelude.{List, ℕ};

    ghost Value = { List ℕ };

    ghost view = { λ s. s.times.items };
}

impl Schedule {
    /// The schedule of so many events at the opposites of these times, of which none is above 0.
    pub(crate) fn opposite(
        alloc: Global,
        times: &[i64],
        events: u32,
    ) -> Result<Schedule, AllocError>
        requires { events ≤ length times.now }
        ensures { IfOk result (λ schedule. schedule ≡ map unsigned_abs (take events times.now)) }
    {
        let times = opposites(alloc, &times[..events as usize])?;
        Ok(Schedule { times })
    }

    /// The time of the controllable event at this place, none where there is no such event.
    pub fn time(&self, event: u32) -> Option<u64>
        ensures { result ≡ slice_get self.now event }
    {
        self.times.get(event as usize).copied()
    }

    /// The times of all controllable events, in their order. It takes no memory.
    pub fn into_times(self) -> Vec<u64>
        ensures { result.items ≡ self }
    {
        self.times
    }
}

/// How far each time is from 0.
fn opposites(alloc: Global, times: &[i64]) -> Result<Vec<u64>, AllocError>
    ensures { IfOk result (λ opposites. opposites.items ≡ map unsigned_abs times.now) }
{
    times.iter().map(|time| time.unsigned_abs()).collect(alloc)
}
