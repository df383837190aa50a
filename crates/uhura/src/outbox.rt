//! Answers that wait to be written.
ghost use Rattle.std.specs.Prelude.{◌≡◌, [], OnOk, OnErr};
ghost use Rattle.std.specs.Io.KnownBytes.{Appends};
ghost use Rattle.uhura_io.specs.Streams.{AppendsFront, HasCause};
ghost use Rattle.uhura.specs.Told.{Puts};

use std::alloc::{AllocError, Global};
use std::marker::Model;
use uhura_io::{Failed, Sink, write_all};

/// How many bytes wait at most.
const OUTBOX: usize = 65_536;

/// Answers that wait to be written at once, in memory that is kept from one write to the next.
#[derive(Drop)]
pub(crate) struct Outbox {
    waiting: Vec<u8>,
}

impl Model for Outbox {
    ghost use Rattle.std.specs.Prelude.{ℕ, List};

    ghost Value = { List ℕ };

    ghost view = { λ s. s.waiting.items };
}

impl Outbox {
    /// Nothing waits.
    pub(crate) fn new(alloc: Global) -> Outbox
        ensures { result ≡ [] }
    {
        Outbox {
            waiting: Vec::new(alloc),
        }
    }

    /// Puts a text behind what waits. Where there is no room or no memory for it, what waits is written, and then the
    /// text.
    pub(crate) fn put<K: Sink>(&mut self, sink: &mut K, text: &[u8]) -> Result<(), Failed>
        ensures told { Puts
            (record { written = K.written sink.old; waiting = self.old }) text.now result
            (record { written = K.written sink.new; waiting = self.new }) }
        ensures cause { HasCause (K.faults sink.old) (K.faults sink.new) result }
    {
        if text.len() > OUTBOX.saturating_sub(self.waiting.len()) {
            return self.write(sink, text);
        }
        match self.waiting.extend_from_slice(text) {
            Ok(()) => Ok(()),
            Err(AllocError) => self.write(sink, text),
        }
    }

    /// Writes all that waits, and then a text.
    fn write<K: Sink>(&mut self, sink: &mut K, text: &[u8]) -> Result<(), Failed>
        ensures told { Puts
            (record { written = K.written sink.old; waiting = self.old }) text.now result
            (record { written = K.written sink.new; waiting = self.new }) }
        ensures cause { HasCause (K.faults sink.old) (K.faults sink.new) result }
    {
        match self.send(sink) {
            Ok(()) => write_all(sink, text),
            Err(Failed) => Err(Failed),
        }
    }

    /// Writes all that waits, or fails with a front of it written.
    pub(crate) fn send<K: Sink>(&mut self, sink: &mut K) -> Result<(), Failed>
        ensures ok { OnOk result (Appends (K.written sink.old) (K.written sink.new) self.old) }
        ensures none { OnOk result (self.new ≡ []) }
        ensures front { OnErr result
            (AppendsFront (K.written sink.old) (K.written sink.new) self.old) }
        ensures cause { HasCause (K.faults sink.old) (K.faults sink.new) result }
    {
        match write_all(sink, &self.waiting) {
            Ok(()) => {
                self.waiting.clear();
                Ok(())
            }
            Err(Failed) => Err(Failed),
        }
    }
}
