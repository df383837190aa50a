//! The answers to a script, line by line as its bytes are read.
ghost use Rattle.std.specs.Prelude.{◌≡◌, ◌≢◌, ◌^◌, ◌<◌, ◌∷◌, [], Err, OnOk};
ghost use Rattle.uhura_text.specs.Reading.{IsFresh};
ghost use Rattle.uhura_command.specs.State.{empty_state};
ghost use Rattle.uhura.specs.Run.{RunsScript, HasSize, MeetsReadFault, MeetsWriteFault};
ghost use Rattle.uhura.specs.declared.script.Stop.TheVariants.{WriteFault};
ghost use Rattle.uhura.specs.declared.status.Status.TheVariants.{ReadFault};
ghost use Rattle.uhura.specs.Script.{AnswersLine, FeedsBytes, FeedsEnd, HasStopCause};
ghost use Rattle.uhura.specs.Script.{IsSent, AnswersBytes, AnswersEnd, status_of, EndsRun};

use crate::Status;
use crate::bytes::{INPUT_LIMIT, PIECE};
use crate::outbox::Outbox;
use std::alloc::AllocError;
use uhura_io::{Failed, Sink, Source};
use uhura_session::Session;
use uhura_text::{Fed, Lines};

/// Why the answers end before the script does.
#[derive(Clone, Copy, Debug, PartialEq, Eq)]
pub(crate) enum Stop {
    WriteFault,
    NoMemory,
}

/// Answers one line, and says whether it is refused.
fn answer_line<K: Sink>(
    session: &mut Session,
    line: &[u8],
    outbox: &mut Outbox,
    sink: &mut K,
) -> Result<bool, Stop>
    ensures line { AnswersLine line.now
        (record {
          state = session.old.state;
          told = record { written = K.written sink.old; waiting = outbox.old };
        }) result
        (record {
          state = session.new.state;
          told = record { written = K.written sink.new; waiting = outbox.new };
        }) }
    ensures cause { HasStopCause (K.faults sink.old) (K.faults sink.new) result }
{
    let answer = match session.line(line) {
        Ok(answer) => answer,
        Err(AllocError) => return Err(Stop::NoMemory),
    };
    match outbox.put(sink, answer.text) {
        Ok(()) => Ok(answer.refused),
        Err(Failed) => Err(Stop::WriteFault),
    }
}

/// Feeds one byte, and answers the line that it ends. Says whether a line was refused.
fn feed<K: Sink>(
    lines: &mut Lines,
    session: &mut Session,
    outbox: &mut Outbox,
    sink: &mut K,
    byte: u8,
) -> Result<bool, Stop>
    ensures bytes { FeedsBytes (byte ∷ [])
        (record {
          reading = lines.old;
          state = session.old.state;
          told = record { written = K.written sink.old; waiting = outbox.old };
        })
        (record {
          reading = lines.new;
          state = session.new.state;
          told = record { written = K.written sink.new; waiting = outbox.new };
        }) result }
    ensures cause { HasStopCause (K.faults sink.old) (K.faults sink.new) result }
{
    match lines.feed(byte) {
        Fed::More => Ok(false),
        Fed::Line | Fed::Long => answer_line(session, lines.line(), outbox, sink),
    }
}

/// Answers the line that the end of the input ends. Says whether it was refused.
fn finish<K: Sink>(
    lines: &mut Lines,
    session: &mut Session,
    outbox: &mut Outbox,
    sink: &mut K,
) -> Result<bool, Stop>
    ensures end { FeedsEnd
        (record {
          reading = lines.old;
          state = session.old.state;
          told = record { written = K.written sink.old; waiting = outbox.old };
        })
        (record { written = K.written sink.new; waiting = outbox.new }) result }
    ensures cause { HasStopCause (K.faults sink.old) (K.faults sink.new) result }
{
    match lines.finish() {
        Fed::More => Ok(false),
        Fed::Line | Fed::Long => answer_line(session, lines.line(), outbox, sink),
    }
}

/// Feeds some bytes, and answers the lines that they end. Says whether a line was refused.
fn feed_all<K: Sink>(
    lines: &mut Lines,
    session: &mut Session,
    outbox: &mut Outbox,
    sink: &mut K,
    bytes: &[u8],
) -> Result<bool, Stop>
    ensures bytes { FeedsBytes bytes.now
        (record {
          reading = lines.old;
          state = session.old.state;
          told = record { written = K.written sink.old; waiting = outbox.old };
        })
        (record {
          reading = lines.new;
          state = session.new.state;
          told = record { written = K.written sink.new; waiting = outbox.new };
        }) result }
    ensures cause { HasStopCause (K.faults sink.old) (K.faults sink.new) result }
{
    let mut refused = false;
    for byte in bytes {
        match feed(lines, session, outbox, sink, *byte) {
            Ok(some) => refused |= some,
            Err(stop) => return Err(stop),
        }
    }
    Ok(refused)
}

/// Writes the answers that wait. What was answered stands, unless the sink fails.
fn send<K: Sink>(
    answered: Result<bool, Stop>,
    outbox: &mut Outbox,
    sink: &mut K,
) -> Result<bool, Stop>
    requires { answered ≢ Err WriteFault }
    ensures sent { IsSent answered
        (record { written = K.written sink.old; waiting = outbox.old }) result
        (K.written sink.new) }
    ensures none { OnOk result (outbox.new ≡ []) }
    ensures cause { HasStopCause (K.faults sink.old) (K.faults sink.new) result }
{
    match outbox.send(sink) {
        Ok(()) => answered,
        Err(Failed) => Err(Stop::WriteFault),
    }
}

/// Answers the lines that some bytes end, and writes the answers. Says whether a line was refused.
fn answer_piece<K: Sink>(
    lines: &mut Lines,
    session: &mut Session,
    outbox: &mut Outbox,
    sink: &mut K,
    bytes: &[u8],
) -> Result<bool, Stop>
    requires { outbox.old ≡ [] }
    ensures bytes { AnswersBytes bytes.now
        (record {
          reading = lines.old;
          state = session.old.state;
          told = record { written = K.written sink.old; waiting = outbox.old };
        })
        (record {
          reading = lines.new;
          state = session.new.state;
          told = record { written = K.written sink.new; waiting = outbox.new };
        }) result }
    ensures none { OnOk result (outbox.new ≡ []) }
    ensures cause { HasStopCause (K.faults sink.old) (K.faults sink.new) result }
{
    match feed_all(lines, session, outbox, sink, bytes) {
        Ok(some) => send(Ok(some), outbox, sink),
        Err(Stop::NoMemory) => send(Err(Stop::NoMemory), outbox, sink),
        Err(Stop::WriteFault) => Err(Stop::WriteFault),
    }
}

/// Answers the line that the end of the input ends, and writes the answer. Says whether it was refused.
fn answer_end<K: Sink>(
    lines: &mut Lines,
    session: &mut Session,
    outbox: &mut Outbox,
    sink: &mut K,
) -> Result<bool, Stop>
    requires { outbox.old ≡ [] }
    ensures end { AnswersEnd
        (record {
          reading = lines.old;
          state = session.old.state;
          told = record { written = K.written sink.old; waiting = outbox.old };
        })
        (K.written sink.new) result }
    ensures cause { HasStopCause (K.faults sink.old) (K.faults sink.new) result }
{
    match finish(lines, session, outbox, sink) {
        Ok(some) => send(Ok(some), outbox, sink),
        Err(Stop::NoMemory) => send(Err(Stop::NoMemory), outbox, sink),
        Err(Stop::WriteFault) => Err(Stop::WriteFault),
    }
}

/// Reads a script to its end, or to what stops it first, and answers its lines as they are read.
pub(crate) fn answer_script<S: Source, K: Sink>(
    lines: &mut Lines,
    session: &mut Session,
    outbox: &mut Outbox,
    source: &mut S,
    sink: &mut K,
) -> Status
    requires fresh { IsFresh lines.old }
    requires begins { session.old.state ≡ empty_state }
    requires empty { outbox.old ≡ [] }

    ensures outcome { RunsScript
        (record { left = S.left source.old; written = K.written sink.old })
        (record { left = S.left source.new; written = K.written sink.new }) result }
    ensures size { S.given source.old < 2 ^ 63 →
        HasSize result (S.given source.old) (S.given source.new) }
    ensures read_fault { MeetsReadFault result (S.faults source.old) (S.faults source.new) }
    ensures write_fault { MeetsWriteFault result (K.faults sink.old) (K.faults sink.new) }
{
    let mut buffer = [0; PIECE];
    let mut room = INPUT_LIMIT;
    let mut refused = false;
    'pieces: loop {
        let given = match source.read(&mut buffer) {
            Ok(given) => given,
            Err(Failed) => return Status::ReadFault,
        };
        if given == 0 {
            return end_status(lines, session, outbox, sink, refused);
        }
        match answer_piece(lines, session, outbox, sink, &buffer[..given.min(room)]) {
            Ok(some) => refused |= some,
            Err(stop) => return status_of(stop),
        }
        if given > room {
            return Status::TooLong;
        }
        room -= given;
    }
}

/// The status at the end of the input, where some line was refused before or none.
fn end_status<K: Sink>(
    lines: &mut Lines,
    session: &mut Session,
    outbox: &mut Outbox,
    sink: &mut K,
    refused: bool,
) -> Status
    requires { outbox.old ≡ [] }
    ensures end { EndsRun
        (record {
          reading = lines.old;
          state = session.old.state;
          told = record { written = K.written sink.old; waiting = outbox.old };
        })
        (K.written sink.new) refused result }
    ensures not_read { result ≢ ReadFault }
    ensures write_fault { MeetsWriteFault result (K.faults sink.old) (K.faults sink.new) }
{
    match answer_end(lines, session, outbox, sink) {
        Ok(some) => {
            if refused || some {
                Status::Refused
            } else {
                Status::Done
            }
        }
        Err(stop) => status_of(stop),
    }
}

/// The status of a run that stopped.
fn status_of(stop: Stop) -> Status
    ensures { result ≡ status_of stop }
{
    match stop {
        Stop::WriteFault => Status::WriteFault,
        Stop::NoMemory => Status::NoMemory,
    }
}
