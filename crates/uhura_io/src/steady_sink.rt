//! A sink that takes every byte and keeps none.
ghost use Rattle.std.specs.Prelude.{◌≡◌, ◌<◌, None, Ok, IfOk, length};
ghost use Rattle.std.specs.Io.{WritesAtMost};
ghost use Rattle.std.specs.Io.KnownBytes.{WriteAppends};
ghost use Rattle.uhura_io.specs.Streams.{HasCause, count_up};

use crate::{Failed, Sink};
use std::marker::Model;

/// A sink that keeps only how many bytes it took, up to the last value of a 64-bit count. It doesn't tell what
/// is written, and its count of faults is always 0: none of its writes fails.
#[derive(Debug, Drop)]
pub struct SteadySink {
    taken: u64,
}

impl Model for SteadySink {
    ghost use Rattle.std.specs.Prelude.{ℕ};

    ghost Value = { ℕ };

    ghost view = { λ s. s.taken };
}

impl SteadySink {
    /// A sink that took nothing yet.
    pub fn new() -> SteadySink
        ensures { result ≡ 0 }
    {
        SteadySink { taken: 0 }
    }
}

impl Sink for SteadySink {
    ghost written = { λ _. None };

    ghost faults = { λ _. 0 };

    /// Takes all of `bytes`.
    fn write(&mut self, bytes: &[u8]) -> Result<usize, Failed>
        ensures bound { WritesAtMost result bytes.now }
        ensures progress { IfOk result (λ n. 0 < length bytes.now → 0 < n) }
        ensures bytes { WriteAppends None None result bytes.now }
        ensures cause { HasCause 0 0 result }

        ensures all { result ≡ Ok (length bytes.now) }
        ensures taken { self.new ≡ count_up self.old (length bytes.now) }
    {
        self.taken = self.taken.saturating_add(bytes.len() as u64);
        Ok(bytes.len())
    }
}
