//! Documents that are read.
ghost use Rattle.std.specs.Prelude.{List, ℕ, [], ◌∷◌, ◌++◌, Err, OnOk, IfErr};
ghost use Rattle.uhura_text.specs.Lines.{lines};
ghost use Rattle.uhura_text.specs.Reading.{IsFresh};
ghost use Rattle.uhura_cert.specs.Text.{Reads};
ghost use Rattle.uhura_cert.specs.Reading.{HasTaken, Advances, Stands, AdvancesOver};

use crate::progress::Progress;
use crate::{Document, DocumentRefusal};
use std::alloc::Global;
use uhura_text::{Fed, Lines};

/// Feeds one byte, and takes the line that it ends.
fn feed(
    alloc: Global,
    cutter: &mut Lines,
    progress: &mut Progress,
    byte: u8,
) -> Result<(), DocumentRefusal>
    ensures { (bytes : List ℕ) → Stands bytes cutter.old progress.old →
        AdvancesOver (bytes ++ byte ∷ []) result cutter.new progress.new }
{
    match cutter.feed(byte) {
        Fed::More => Ok(()),
        Fed::Line | Fed::Long => progress.line(alloc, cutter.line()),
    }
}

/// Takes the line that the end of the bytes ends.
fn finish(alloc: Global, cutter: &mut Lines, progress: &mut Progress) -> Result<(), DocumentRefusal>
    ensures { (bytes : List ℕ) → Stands bytes cutter.old progress.old →
        Advances (lines bytes) result progress.new }
{
    match cutter.finish() {
        Fed::More => Ok(()),
        Fed::Line | Fed::Long => progress.line(alloc, cutter.line()),
    }
}

/// Takes all lines of the bytes.
fn take_lines(
    alloc: Global,
    cutter: &mut Lines,
    progress: &mut Progress,
    bytes: &[u8],
) -> Result<(), DocumentRefusal>
    requires fresh { IsFresh cutter.old }
    requires begins { HasTaken [] progress.old }
    ensures ok { OnOk result (HasTaken (lines bytes.now) progress.new) }
    ensures err { IfErr result (λ refusal. Reads (lines bytes.now) (Err refusal)) }
{
    for byte in bytes {
        if let Err(refusal) = feed(alloc, cutter, progress, *byte) {
            return Err(refusal);
        }
    }
    finish(alloc, cutter, progress)
}

/// Reads the text of a document of version 1 or 2, whose requirements then have their places as their slots. Bytes
/// that are no document's text are refused at the first line, counted from 1, up to which no document's text agrees;
/// where they end too early it is the line behind the last.
///
/// A CR at the end of a line is passed over, and the last line needs no newline. A line of more than 4,096 bytes is
/// malformed. The time taken is in proportion to the bytes.
pub fn read_document(alloc: Global, bytes: &[u8]) -> Result<Document, DocumentRefusal>
    ensures { Reads (lines bytes.now) result }
{
    let mut cutter = Lines::new(alloc)?;
    let mut progress = Progress::new(alloc)?;
    if let Err(refusal) = take_lines(alloc, &mut cutter, &mut progress, bytes) {
        return Err(refusal);
    }
    progress.document()
}
