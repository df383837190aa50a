//! Standard input as a source. It is trusted: no contract can say which bytes the system gives.
ghost use Rattle.std.specs.Prelude.{◌≡◌};
ghost use Rattle.std.specs.Io.{ReadsAtMost};
ghost use Rattle.std.specs.Io.KnownBytes.{ReadConsumes};
ghost use Rattle.uhura_io.specs.Streams.{Counts, HasCause};
ghost use Rattle.uhura_io.specs.System.{faults_after};

use crate::{Failed, Source};
use std::io::Read;
use std::marker::Model;

/// A source over one of std's readers, as `rt.stdin()`. It tells nothing of the bytes, and counts those that it
/// gave and each error, both up to the last value of a 64-bit count.
#[derive(Debug, Drop)]
pub struct InputSource<R> {
    input: R,
    given: u64,
    faults: u64,
}

impl<R> Model for InputSource<R> {
    ghost use Rattle.uhura_io.specs.System.{Input};

    ghost Value = { Input R };

    ghost view = { λ s. record { reader = s.input; given = s.given; faults = s.faults } };
}

impl<R> InputSource<R> {
    /// A source over `input` with both counts at 0.
    pub fn new(input: R) -> InputSource<R>
        ensures { result ≡ record { reader = input; given = 0; faults = 0 } }
    {
        InputSource {
            input,
            given: 0,
            faults: 0,
        }
    }
}

impl<R: Read> Source for InputSource<R> {
    ghost left = { λ s. R.remaining s.reader };

    ghost given = { λ s. s.given };

    ghost faults = { λ s. s.faults };

    /// One read of the system. An error of its own is counted, and is Failed here.
    fn read(&mut self, into: &mut [u8]) -> Result<usize, Failed>
        ensures bound { ReadsAtMost result into.new }
        ensures bytes { ReadConsumes (R.remaining self.old.reader) (R.remaining self.new.reader)
            result into.new }
        ensures count { Counts self.old.given self.new.given result }
        ensures cause { HasCause self.old.faults self.new.faults result }

        ensures faults { self.new.faults ≡ faults_after self.old.faults result }
    {
        match self.input.read(into) {
            Ok(n) => {
                self.given = self.given.saturating_add(n as u64);
                Ok(n)
            }
            Err(_) => {
                self.faults = self.faults.saturating_add(1);
                Err(Failed)
            }
        }
    }
}
