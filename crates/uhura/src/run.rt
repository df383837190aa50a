//! A run of the program: its words say what it does, and its status how it ended.
ghost use Rattle.std.specs.Prelude.{◌≡◌, ◌^◌, ◌<◌, ℕ, Some};
ghost use Rattle.uhura.specs.declared.status.Status.TheVariants.{Usage};
ghost use Rattle.uhura.specs.declared.task.Task.TheVariants.{Measure};
ghost use Rattle.uhura.specs.Run.{task_of, Ends, Runs, RunsScript, HasSize, MeetsReadFault, MeetsWriteFault};

use crate::Status;
use crate::document::check_document;
use crate::measure::measure;
use crate::outbox::Outbox;
use crate::script::answer_script;
use crate::task::{Task, read_task};
use std::alloc::{AllocError, Global};
use uhura_io::{Sink, Source};
use uhura_session::Session;
use uhura_text::Lines;

/// Does what the words ask for. With no word, or the one word `run`, it reads a script from the source and writes the
/// answers to its lines, in order, to the sink. With the one word `check` it reads a document, and writes `confirmed`,
/// or `not confirmed` with the first condition that it fails and the line of it. With the words `measure N` it reads
/// nothing, asks the plan that the number N gives, and writes what the document of the answer says.
///
/// `outcome` speaks of the bytes where the source tells what it has left and the sink what was written: only there
/// are Done and Refused told apart. The causes of the other statuses hold of every source and sink, that of `TooLong`
/// by the number of bytes given, where it is below 2^63 at the call.
///
/// Each read asks for 4,096 bytes, and the answers to all whole lines that were read are written before the next
/// read, at once where they have at most 65,536 bytes. No clause says so: it is tested. An answer is composed in memory
/// before its first byte is written.
pub fn run<S: Source, K: Sink>(
    alloc: Global,
    words: &Vec<String>,
    source: &mut S,
    sink: &mut K,
) -> Status
    ensures outcome { Runs (task_of words.now.items)
        (record { left = S.left source.old; written = K.written sink.old })
        (record { left = S.left source.new; written = K.written sink.new }) result }
    ensures untouched { result ≡ Usage → (source.new ≡ source.old) × (sink.new ≡ sink.old) }
    ensures unread { (number : ℕ) → task_of words.now.items ≡ Some (Measure number) →
        source.new ≡ source.old }

    // These hold of a source and a sink that tell nothing, too.
    ensures size { S.given source.old < 2 ^ 63 →
        HasSize result (S.given source.old) (S.given source.new) }
    ensures read_fault { MeetsReadFault result (S.faults source.old) (S.faults source.new) }
    ensures write_fault { MeetsWriteFault result (K.faults sink.old) (K.faults sink.new) }
{
    match read_task(words) {
        Some(Task::Script) => run_script(alloc, source, sink),
        Some(Task::Check) => check_document(alloc, source, sink),
        Some(Task::Measure { number }) => measure(alloc, number, sink),
        None => Status::Usage,
    }
}

/// Answers the lines of a script in a new session.
fn run_script<S: Source, K: Sink>(alloc: Global, source: &mut S, sink: &mut K) -> Status
    ensures outcome { RunsScript
        (record { left = S.left source.old; written = K.written sink.old })
        (record { left = S.left source.new; written = K.written sink.new }) result }
    ensures size { S.given source.old < 2 ^ 63 →
        HasSize result (S.given source.old) (S.given source.new) }
    ensures read_fault { MeetsReadFault result (S.faults source.old) (S.faults source.new) }
    ensures write_fault { MeetsWriteFault result (K.faults sink.old) (K.faults sink.new) }
{
    let mut lines = match Lines::new(alloc) {
        Ok(lines) => lines,
        Err(AllocError) => return Status::NoMemory,
    };
    let mut session = match Session::new(alloc) {
        Ok(session) => session,
        Err(AllocError) => return Status::NoMemory,
    };
    answer_script(
        &mut lines,
        &mut session,
        &mut Outbox::new(alloc),
        source,
        sink,
    )
}
