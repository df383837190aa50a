//! What is said of a document.
ghost use Rattle.std.specs.Prelude.{◌≡◌, [], IfOk};
ghost use Rattle.uhura_text.specs.Lines.{lines};
ghost use Rattle.uhura.specs.Verdict.{IsJudged, verdict_line, refusal_line, code_name};

use std::alloc::{AllocError, Global};
use uhura_cert::{DocumentRefusal, read_document};
use uhura_check::{CheckRefusal, Code, check};
use uhura_text::put_number;

/// Whether a document is confirmed, or the first condition that it fails with its line, or the first line up to which
/// the bytes are no document's.
#[derive(Clone, Copy, Debug, PartialEq, Eq)]
pub(crate) enum Verdict {
    Confirmed,
    Failed { code: Code, line: u32 },
    Malformed { line: u32 },
}

/// Reads and checks a document.
pub(crate) fn judge(alloc: Global, bytes: &[u8]) -> Result<Verdict, AllocError>
    ensures { IfOk result (IsJudged (lines bytes.now)) }
{
    let document = match read_document(alloc, bytes) {
        Ok(document) => document,
        Err(DocumentRefusal::Malformed { line }) => return Ok(Verdict::Malformed { line }),
        Err(DocumentRefusal::Memory(error)) => return Err(error),
    };
    match check(alloc, &document) {
        Ok(()) => Ok(Verdict::Confirmed),
        Err(CheckRefusal::NotConfirmed { code, line }) => Ok(Verdict::Failed { code, line }),
        Err(CheckRefusal::Memory(error)) => Err(error),
    }
}

/// Writes the line of a verdict into an empty text.
pub(crate) fn put_verdict(text: &mut Vec<u8>, verdict: Verdict) -> Result<(), AllocError>
    requires { text.old.items ≡ [] }
    ensures { IfOk result (λ _. text.new.items ≡ verdict_line verdict) }
{
    match verdict {
        Verdict::Confirmed => text.extend_from_slice(b"confirmed\n"),
        Verdict::Failed { code, line } => put_refusal(text, code_name(code), line),
        Verdict::Malformed { line } => put_refusal(text, b"Malformed", line),
    }
}

/// Writes that a document isn't confirmed, for this cause at this line.
fn put_refusal(text: &mut Vec<u8>, cause: &[u8], line: u32) -> Result<(), AllocError>
    requires { text.old.items ≡ [] }
    ensures { IfOk result (λ _. text.new.items ≡ refusal_line cause.now line) }
{
    text.extend_from_slice(b"not confirmed ")?;
    text.extend_from_slice(cause)?;
    text.extend_from_slice(b" ")?;
    put_number(text, i128::from(line))?;
    text.extend_from_slice(b"\n")
}

/// The name of a condition.
fn code_name(code: Code) -> &'static [u8]
    ensures { result.now ≡ code_name code }
{
    match code {
        Code::Pick => b"Pick",
        Code::Room => b"Room",
        Code::Cost => b"Cost",
        Code::Broken => b"Broken",
        Code::LeafOrder => b"LeafOrder",
        Code::LeafDenied => b"LeafDenied",
        Code::LeafStuck => b"LeafStuck",
        Code::LeafUnits => b"LeafUnits",
        Code::LeafBalance => b"LeafBalance",
        Code::LeafValue => b"LeafValue",
        Code::LeafMissing => b"LeafMissing",
    }
}
