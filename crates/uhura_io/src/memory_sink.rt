//! A sink over memory that it took at once, in pieces, with faults where a test wants them.
ghost use Rattle.std.specs.Prelude.{◌≡◌, ◌<◌, ◌↔◌, Some, [], IfOk, IsErr, length};
ghost use Rattle.std.specs.Io.{WritesAtMost};
ghost use Rattle.std.specs.Io.KnownBytes.{WriteAppends};
ghost use Rattle.uhura_io.specs.Streams.{HasCause};
ghost use Rattle.uhura_io.specs.MemorySink.{Refuses, write_size, after_write};

use crate::copying::copy_behind;
use crate::{Failed, Sink};
use std::alloc::{AllocError, Global};
use std::marker::Model;

/// A sink that keeps what is written, up to its capacity. It takes at most a piece at a time, and its writes,
/// counted from 1, fail where it was told to.
#[derive(Debug, Drop)]
pub struct MemorySink {
    buffer: Vec<u8>,
    used: usize,
    piece: usize,
    failing: Vec<u64>,
    writes: u64,
    faults: u64,
}

impl Model for MemorySink {
    ghost use Rattle.std.specs.Prelude.{◌<◌, ◌≤◌, take, length};
    ghost use Rattle.uhura_io.specs.MemorySink.{Writable};

    ghost Value = { Writable };

    ghost view = { λ s. record {
      written = take s.used s.buffer.items;
      capacity = length s.buffer.items;
      piece = s.piece;
      failing = s.failing.items;
      writes = s.writes;
      faults = s.faults;
    } };

    ghost invariant = { λ s. (s.used ≤ length s.buffer.items) × (0 < s.piece) };
}

impl MemorySink {
    /// An empty sink for `capacity` bytes, of at most `piece` bytes a write, whose writes with a number in
    /// `failing` fail. No later call takes memory.
    pub fn new(
        alloc: Global,
        capacity: usize,
        piece: usize,
        failing: &[u64],
    ) -> Result<MemorySink, AllocError>
        requires { 0 < piece }
        ensures { IfOk result (λ s. s ≡ record {
          written = [];
          capacity = capacity;
          piece = piece;
          failing = failing.now;
          writes = 0;
          faults = 0;
        }) }
    {
        Ok(MemorySink {
            buffer: vec![in alloc; 0; capacity]?,
            used: 0,
            piece,
            failing: failing.to_vec(alloc)?,
            writes: 0,
            faults: 0,
        })
    }

    /// What is written.
    pub fn bytes(&self) -> &[u8]
        ensures { result.now ≡ self.now.written }
    {
        &self.buffer[..self.used]
    }
}

impl Sink for MemorySink {
    ghost written = { λ s. Some s.written };

    ghost faults = { λ s. s.faults };

    /// Takes the least of a piece, `bytes` and the room left, unless this write was told to fail. A write of
    /// something to a full sink fails too.
    fn write(&mut self, bytes: &[u8]) -> Result<usize, Failed>
        ensures bound { WritesAtMost result bytes.now }
        ensures progress { IfOk result (λ n. 0 < length bytes.now → 0 < n) }
        ensures bytes { WriteAppends (Some self.old.written) (Some self.new.written)
            result bytes.now }
        ensures cause { HasCause self.old.faults self.new.faults result }

        ensures fails { IsErr result ↔ Refuses self.old bytes.now }
        ensures size { IfOk result (λ n. n ≡ write_size self.old bytes.now) }
        ensures after { self.new ≡ after_write self.old bytes.now result }
    {
        self.writes = self.writes.saturating_add(1);
        let is_full = self.used == self.buffer.len();
        if self.failing.contains(&self.writes) || (is_full && !bytes.is_empty()) {
            self.faults = self.faults.saturating_add(1);
            return Err(Failed);
        }
        let n = copy_behind(bytes, &mut self.buffer, self.used, self.piece);
        self.used += n;
        Ok(n)
    }
}
