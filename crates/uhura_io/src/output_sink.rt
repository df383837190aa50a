//! Standard output as a sink. It is trusted: no contract can say which bytes reach the system.
ghost use Rattle.std.specs.Prelude.{◌≡◌, ◌<◌, IfOk, length};
ghost use Rattle.std.specs.Io.{WritesAtMost};
ghost use Rattle.std.specs.Io.KnownBytes.{WriteAppends};
ghost use Rattle.uhura_io.specs.Streams.{HasCause};
ghost use Rattle.uhura_io.specs.System.{faults_after};

use crate::{Failed, Sink};
use std::io::Write;
use std::marker::Model;

/// A sink over one of std's writers that keeps no bytes back, as `rt.stdout()`: nothing is flushed. It tells
/// nothing of the bytes, and counts its faults up to the last value of a 64-bit count.
#[derive(Debug, Drop)]
pub struct OutputSink<W> {
    output: W,
    faults: u64,
}

impl<W> Model for OutputSink<W> {
    ghost use Rattle.uhura_io.specs.System.{Output};

    ghost Value = { Output W };

    ghost view = { λ s. record { writer = s.output; faults = s.faults } };
}

impl<W> OutputSink<W> {
    /// A sink over `output` with its count at 0.
    pub fn new(output: W) -> OutputSink<W>
        ensures { result ≡ record { writer = output; faults = 0 } }
    {
        OutputSink { output, faults: 0 }
    }
}

impl<W: Write> Sink for OutputSink<W> {
    ghost written = { λ s. W.contents s.writer };

    ghost faults = { λ s. s.faults };

    /// One write of the system. An error of its own, and a write of something that takes nothing, is counted,
    /// and is Failed here.
    fn write(&mut self, bytes: &[u8]) -> Result<usize, Failed>
        ensures bound { WritesAtMost result bytes.now }
        ensures progress { IfOk result (λ n. 0 < length bytes.now → 0 < n) }
        ensures bytes { WriteAppends (W.contents self.old.writer) (W.contents self.new.writer)
            result bytes.now }
        ensures cause { HasCause self.old.faults self.new.faults result }

        ensures faults { self.new.faults ≡ faults_after self.old.faults result }
    {
        match self.output.write(bytes) {
            Ok(n) if n > 0 || bytes.is_empty() => Ok(n),
            _ => {
                self.faults = self.faults.saturating_add(1);
                Err(Failed)
            }
        }
    }
}
