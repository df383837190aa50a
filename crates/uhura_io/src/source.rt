//! Where a script's bytes come from.
ghost use Rattle.std.specs.Prelude.{ℕ, List, Option};
ghost use Rattle.std.specs.Io.{ReadsAtMost};
ghost use Rattle.std.specs.Io.KnownBytes.{ReadConsumes};
ghost use Rattle.uhura_io.specs.Streams.{Counts, HasCause};

use crate::Failed;

/// A stream of bytes that is read piece by piece.
pub trait Source {
    /// The bytes that it has left, where it tells them.
    ghost left: { Self → Option (List ℕ) };

    /// How many bytes it gave so far, up to the last value of a 64-bit count.
    ghost given: { Self → ℕ };

    /// How often it failed. This number never falls.
    ghost faults: { Self → ℕ };

    /// Fills the front of `into` with the next bytes and answers how many they are. `Ok(0)` on a slice
    /// that isn't empty is the end of the input. A failed read gives nothing.
    fn read(&mut self, into: &mut [u8]) -> Result<usize, Failed>
        ensures bound { ReadsAtMost result into.new }
        ensures bytes { ReadConsumes (left self.old) (left self.new) result into.new }
        ensures count { Counts (given self.old) (given self.new) result }
        ensures cause { HasCause (faults self.old) (faults self.new) result };
}
