//! Whole runs over streams in memory: the words, and what a run leaves where a read or a write fails.
use crate::run::run;
use std::alloc::{AllocError, Global};
use uhura_io::{MemorySink, MemorySource, Sink, Source, SteadySink, SteadySource};

const EVENT_AND_QUESTIONS: &[u8] = b"event a\npropose\nprove\n";

const PROPOSED: &[u8] = b"ok\nproposal 0\nat a 0\nend\n";

const TRANSCRIPT: &[u8] = b"ok\nproposal 0\nat a 0\nend\n\
document 2\nevent a\nanswer\nproposal 0\nat a 0\nend\nshared flow\nleaf\nuse 0\nend\n";

const DOCUMENT: &[u8] = b"document 1\nevent a\nanswer\nproposal 0\nat a 0\nend\nleaf\nflow\nend\n";

/// Runs a script in pieces of `piece` bytes, with one failing read and one failing write (0 for none), and
/// says with which status the run ended and whether `written` was written.
fn ends(
    alloc: Global,
    script: &[u8],
    piece: usize,
    read: u64,
    write: u64,
    written: &[u8],
) -> Result<(u8, bool), AllocError> {
    ends_by(alloc, &[], script, piece, read, write, written)
}

/// The same of a run with these words.
fn ends_by(
    alloc: Global,
    words: &[&str],
    script: &[u8],
    piece: usize,
    read: u64,
    write: u64,
    written: &[u8],
) -> Result<(u8, bool), AllocError> {
    let mut source = MemorySource::new(alloc, script, piece.max(1), &[read])?;
    let mut sink = MemorySink::new(alloc, 128, piece.max(1), &[write])?;
    let status = status_by(alloc, words, &mut source, &mut sink)?;
    Ok((status, sink.bytes() == written))
}

/// The status of a run with these words.
fn status_by<S: Source, K: Sink>(
    alloc: Global,
    words: &[&str],
    source: &mut S,
    sink: &mut K,
) -> Result<u8, AllocError> {
    let mut list = Vec::new(alloc);
    for word in words {
        list.push(String::from_str(alloc, word)?)?;
    }
    Ok(run(alloc, &list, source, sink) as u8)
}

/// The status of a run with these words over steady streams.
fn status(alloc: Global, words: &[&str], script: &[u8]) -> Result<u8, AllocError> {
    let mut source = SteadySource::new(alloc, script)?;
    status_by(alloc, words, &mut source, &mut SteadySink::new())
}

#[test]
fn the_words_are_those_listed(rt: HostRuntime) -> Result<(), AllocError> {
    for (words, script, owed) in [
        ([].as_slice(), b"".as_slice(), 0),
        (&["run"], EVENT_AND_QUESTIONS, 0),
        (&["check"], DOCUMENT, 0),
        (&["check"], b"", 1),
        (&["measure", "1"], b"", 0),
        (&["measure", "0"], b"", 2),
        (&["run"], b"event a\njump", 1),
        (&["ran"], b"", 2),
        (&["run", "run"], b"", 2),
    ] {
        assert_eq!(rt; status(rt.alloc(), words, script)?, owed, "by {words:?}");
    }
    Ok(())
}

#[test]
fn the_first_fault_ends_the_run(rt: HostRuntime) -> Result<(), AllocError> {
    let three = b"event a\nevent b\nevent c\n".as_slice();
    for (script, piece, read, write, status, written) in [
        (three, 19, 2, 0, 4, b"ok\nok\n".as_slice()),
        (three, 19, 0, 2, 5, b"ok\nok\n"),
        // One write has the answers of one read, so there is no second one that fails.
        (three, 4096, 0, 2, 0, b"ok\nok\nok\n"),
        (b"event a\n", 4096, 1, 1, 4, b""),
        (b"event a\nevent b", 8, 2, 0, 4, b"ok\n"),
        (b"event a\nevent b", 8, 3, 0, 4, b"ok\n"),
        (b"event a\nevent b", 8, 4, 2, 5, b"ok\n"),
    ] {
        let got = ends(rt.alloc(), script, piece, read, write, written)?;
        assert_eq!(rt; got, (status, true), "at {read} and {write} of {script:?}");
    }
    Ok(())
}

#[test]
fn each_read_fails_in_turn(rt: HostRuntime) -> Result<(), AllocError> {
    for read in 1..26 {
        let (status, written) = match read {
            1..=8 => (4, b"".as_slice()),
            9..=16 => (4, b"ok\n".as_slice()),
            17..=22 => (4, PROPOSED),
            23 => (4, TRANSCRIPT),
            _ => (0, TRANSCRIPT),
        };
        let got = ends(rt.alloc(), EVENT_AND_QUESTIONS, 1, read, 0, written)?;
        assert_eq!(rt; got, (status, true), "at read {read}");
    }
    Ok(())
}

#[test]
fn each_write_fails_in_turn(rt: HostRuntime) -> Result<(), AllocError> {
    for (k, _) in TRANSCRIPT.iter().enumerate() {
        let write = k as u64 + 1;
        let got = ends(
            rt.alloc(),
            EVENT_AND_QUESTIONS,
            1,
            0,
            write,
            &TRANSCRIPT[..k],
        )?;
        assert_eq!(rt; got, (5, true), "at write {write}");
    }
    let got = ends(rt.alloc(), EVENT_AND_QUESTIONS, 1, 0, 101, TRANSCRIPT)?;
    assert_eq!(rt; got, (0, true));
    Ok(())
}

#[test]
fn each_read_of_a_document_fails_in_turn(rt: HostRuntime) -> Result<(), AllocError> {
    for (k, _) in DOCUMENT.iter().enumerate() {
        let read = k as u64 + 1;
        let got = ends_by(rt.alloc(), &["check"], DOCUMENT, 1, read, 0, b"")?;
        assert_eq!(rt; got, (4, true), "at read {read}");
    }
    let got = ends_by(rt.alloc(), &["check"], DOCUMENT, 1, 0, 4, b"con")?;
    assert_eq!(rt; got, (5, true));
    Ok(())
}
