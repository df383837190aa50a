//! A source over bytes in memory, in pieces, with faults where a test wants them.
ghost use Rattle.std.specs.Prelude.{◌≡◌, ◌<◌, ◌++◌, ◌↔◌, ℕ, List, Option, Some, IfOk, IsErr, OnErr, Contains, length, take, drop};
ghost use Rattle.std.specs.Io.{ReadsAtMost};
ghost use Rattle.std.specs.Io.KnownBytes.{ReadConsumes};
ghost use Rattle.uhura_io.specs.Streams.{Counts, HasCause};
ghost use Rattle.uhura_io.specs.MemorySource.{next_read, read_size, after_read};

use crate::copying::copy_front;
use crate::{Failed, Source};
use std::alloc::{AllocError, Global};
use std::marker::Model;

/// A source over bytes that it holds. It gives at most a piece at a time, and its reads, counted from 1,
/// fail where it was told to.
#[derive(Debug, Drop)]
pub struct MemorySource {
    bytes: Vec<u8>,
    at: usize,
    piece: usize,
    failing: Vec<u64>,
    reads: u64,
    given: u64,
    faults: u64,
}

impl Model for MemorySource {
    ghost use Rattle.std.specs.Prelude.{◌<◌, ◌≤◌, drop, length};
    ghost use Rattle.uhura_io.specs.MemorySource.{Readable};

    ghost Value = { Readable };

    ghost view = { λ s. record {
      left = drop s.at s.bytes.items;
      piece = s.piece;
      failing = s.failing.items;
      reads = s.reads;
      given = s.given;
      faults = s.faults;
    } };

    ghost invariant = { λ s. (s.at ≤ length s.bytes.items) × (0 < s.piece) };
}

impl MemorySource {
    /// A source of a copy of `bytes`, of at most `piece` bytes a read, whose reads with a number in `failing` fail.
    pub fn new(
        alloc: Global,
        bytes: &[u8],
        piece: usize,
        failing: &[u64],
    ) -> Result<MemorySource, AllocError>
        requires { 0 < piece }
        ensures { IfOk result (λ s. s ≡ record {
          left = bytes.now;
          piece = piece;
          failing = failing.now;
          reads = 0;
          given = 0;
          faults = 0;
        }) }
    {
        Ok(MemorySource {
            bytes: bytes.to_vec(alloc)?,
            at: 0,
            piece,
            failing: failing.to_vec(alloc)?,
            reads: 0,
            given: 0,
            faults: 0,
        })
    }
}

impl Source for MemorySource {
    ghost left = { λ s. Some s.left };

    ghost given = { λ s. s.given };

    ghost faults = { λ s. s.faults };

    /// Gives the least of a piece, the room in `into` and what is left, unless this read was told to fail.
    fn read(&mut self, into: &mut [u8]) -> Result<usize, Failed>
        ensures bound { ReadsAtMost result into.new }
        ensures bytes { ReadConsumes (Some self.old.left) (Some self.new.left) result into.new }
        ensures count { Counts self.old.given self.new.given result }
        ensures cause { HasCause self.old.faults self.new.faults result }

        ensures fails { IsErr result ↔ Contains self.old.failing (next_read self.old) }
        ensures size { IfOk result (λ n. n ≡ read_size self.old (length into.old)) }
        ensures copied { IfOk result (λ n. into.new ≡ take n self.old.left ++ drop n into.old) }
        ensures untouched { OnErr result (into.new ≡ into.old) }
        ensures after { self.new ≡ after_read self.old result }
    {
        self.reads = self.reads.saturating_add(1);
        if self.failing.contains(&self.reads) {
            self.faults = self.faults.saturating_add(1);
            return Err(Failed);
        }
        let n = copy_front(&self.bytes[self.at..], into, self.piece);
        self.at += n;
        self.given = self.given.saturating_add(n as u64);
        Ok(n)
    }
}
