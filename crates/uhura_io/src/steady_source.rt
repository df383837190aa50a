//! A source over bytes in memory that never fails.
ghost use Rattle.std.specs.Prelude.{◌≡◌, ◌++◌, Some, Ok, IfOk, length, take, drop, min};
ghost use Rattle.std.specs.Io.{ReadsAtMost};
ghost use Rattle.std.specs.Io.KnownBytes.{ReadConsumes};
ghost use Rattle.uhura_io.specs.Streams.{Counts, HasCause};
ghost use Rattle.uhura_io.specs.SteadySource.{after_giving};

use crate::copying::copy_front;
use crate::{Failed, Source};
use std::alloc::{AllocError, Global};
use std::marker::Model;

/// A source over bytes that it holds, whose count of faults is always 0: none of its reads fails.
#[derive(Debug, Drop)]
pub struct SteadySource {
    bytes: Vec<u8>,
    at: usize,
    given: u64,
}

impl Model for SteadySource {
    ghost use Rattle.std.specs.Prelude.{◌≤◌, drop, length};
    ghost use Rattle.uhura_io.specs.SteadySource.{Steady};

    ghost Value = { Steady };

    ghost view = { λ s. record { left = drop s.at s.bytes.items; given = s.given } };

    ghost invariant = { λ s. s.at ≤ length s.bytes.items };
}

impl SteadySource {
    /// A source of a copy of `bytes`.
    pub fn new(alloc: Global, bytes: &[u8]) -> Result<SteadySource, AllocError>
        ensures { IfOk result (λ s. s ≡ record { left = bytes.now; given = 0 }) }
    {
        Ok(SteadySource {
            bytes: bytes.to_vec(alloc)?,
            at: 0,
            given: 0,
        })
    }
}

impl Source for SteadySource {
    ghost left = { λ s. Some s.left };

    ghost given = { λ s. s.given };

    ghost faults = { λ _. 0 };

    /// Gives as much as `into` has room for and is left.
    fn read(&mut self, into: &mut [u8]) -> Result<usize, Failed>
        ensures bound { ReadsAtMost result into.new }
        ensures bytes { ReadConsumes (Some self.old.left) (Some self.new.left) result into.new }
        ensures count { Counts self.old.given self.new.given result }
        ensures cause { HasCause 0 0 result }

        ensures size { result ≡ Ok (min (length into.old) (length self.old.left)) }
        ensures copied { IfOk result (λ n. into.new ≡ take n self.old.left ++ drop n into.old) }
        ensures after { IfOk result (λ n. self.new ≡ after_giving self.old n) }
    {
        let n = copy_front(&self.bytes[self.at..], into, usize::MAX);
        self.at += n;
        self.given = self.given.saturating_add(n as u64);
        Ok(n)
    }
}
