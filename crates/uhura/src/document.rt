//! The check of a document: all of it is read, and then its verdict is written.
ghost use Rattle.std.specs.Prelude.{◌≡◌, ◌≢◌, ◌^◌, ◌<◌};
ghost use Rattle.uhura_text.specs.Lines.{lines};
ghost use Rattle.uhura.specs.declared.status.Status.TheVariants.{ReadFault};
ghost use Rattle.uhura.specs.Run.{ChecksDocument, HasSize, MeetsReadFault, MeetsWriteFault};
ghost use Rattle.uhura.specs.Verdict.{TellsVerdict, status_of_verdict};

use crate::Status;
use crate::bytes::{Unread, read_all};
use crate::verdict::{Verdict, judge, put_verdict};
use std::alloc::{AllocError, Global};
use uhura_io::{Failed, Sink, Source, write_all};

/// Reads a document and writes whether it is confirmed. Where it can't be read to its end, nothing is written.
pub(crate) fn check_document<S: Source, K: Sink>(
    alloc: Global,
    source: &mut S,
    sink: &mut K,
) -> Status
    ensures outcome { ChecksDocument
        (record { left = S.left source.old; written = K.written sink.old })
        (record { left = S.left source.new; written = K.written sink.new }) result }
    ensures size { S.given source.old < 2 ^ 63 →
        HasSize result (S.given source.old) (S.given source.new) }
    ensures read_fault { MeetsReadFault result (S.faults source.old) (S.faults source.new) }
    ensures write_fault { MeetsWriteFault result (K.faults sink.old) (K.faults sink.new) }
{
    match read_all(alloc, source) {
        Ok(bytes) => tell_verdict(alloc, &bytes, sink),
        Err(Unread::TooLong) => Status::TooLong,
        Err(Unread::ReadFault) => Status::ReadFault,
        Err(Unread::NoMemory) => Status::NoMemory,
    }
}

/// Writes the verdict on a document.
fn tell_verdict<K: Sink>(alloc: Global, bytes: &[u8], sink: &mut K) -> Status
    ensures told { TellsVerdict (lines bytes.now) (K.written sink.old) (K.written sink.new) result }
    ensures not_read { result ≢ ReadFault }
    ensures write_fault { MeetsWriteFault result (K.faults sink.old) (K.faults sink.new) }
{
    let verdict = match judge(alloc, bytes) {
        Ok(verdict) => verdict,
        Err(AllocError) => return Status::NoMemory,
    };
    let mut text = Vec::new(alloc);
    match put_verdict(&mut text, verdict) {
        Ok(()) => {}
        Err(AllocError) => return Status::NoMemory,
    }
    match write_all(sink, &text) {
        Ok(()) => status_of(verdict),
        Err(Failed) => Status::WriteFault,
    }
}

/// The status of a verdict that was told.
fn status_of(verdict: Verdict) -> Status
    ensures { result ≡ status_of_verdict verdict }
{
    match verdict {
        Verdict::Confirmed => Status::Done,
        Verdict::Failed { .. } | Verdict::Malformed { .. } => Status::Refused,
    }
}
