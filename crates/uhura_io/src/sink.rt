//! Where the answers go.
ghost use Rattle.std.specs.Prelude.{ℕ, List, Option, ◌<◌, IfOk, length};
ghost use Rattle.std.specs.Io.{WritesAtMost};
ghost use Rattle.std.specs.Io.KnownBytes.{WriteAppends};
ghost use Rattle.uhura_io.specs.Streams.{HasCause};

use crate::Failed;

/// A stream of bytes that is written piece by piece.
pub trait Sink {
    /// The bytes that were written, where it tells them.
    ghost written: { Self → Option (List ℕ) };

    /// How often it failed. This number never falls.
    ghost faults: { Self → ℕ };

    /// Takes the front of `bytes` and answers how many bytes it took: at least one where there is one.
    /// A failed write takes nothing.
    fn write(&mut self, bytes: &[u8]) -> Result<usize, Failed>
        ensures bound { WritesAtMost result bytes.now }
        ensures progress { IfOk result (λ n. 0 < length bytes.now → 0 < n) }
        ensures bytes { WriteAppends (written self.old) (written self.new) result bytes.now }
        ensures cause { HasCause (faults self.old) (faults self.new) result };
}
