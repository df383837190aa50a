//! The check of a document.
ghost use Rattle.std.specs.Prelude.{IfOk};
ghost use Rattle.uhura_cert.specs.Document.{IsDocument};
ghost use Rattle.uhura_check.specs.Confirmed.{answer_of};
ghost use Rattle.uhura_check.specs.Right.{IsRight};
ghost use Rattle.uhura_check.specs.Table.{asks_of, Checks};
ghost use Rattle.uhura_check.specs.Failure.{Tells};

use crate::CheckRefusal;
use crate::failure::Failure;
use crate::leaves::leaves_failure;
use crate::stating::stated_answer;
use std::alloc::{AllocError, Global};
use uhura_cert::Document;

/// Whether a document is confirmed: its proposal is allowed in whole units and costs what it states, and its leaves
/// show that nothing that is allowed is better, or, where it has no proposal, that nothing is allowed. Else the first
/// condition that it fails, with the line, counted from 1, at which it is told. Whoever has a document from anywhere
/// may rely on the yes. The leaves take time in their size, and memory is taken in the size of the shared entries.
pub fn check(alloc: Global, document: &Document) -> Result<(), CheckRefusal>
    ensures checks { Checks document.now result }
    ensures right { IfOk result (λ _. IsRight document.now.state document.now.answer) }
{
    match first_failure(alloc, document) {
        Ok(Some(failure)) => Err(CheckRefusal::NotConfirmed {
            code: failure.code,
            line: failure.line,
        }),
        Ok(None) => Ok(()),
        Err(error) => Err(CheckRefusal::Memory(error)),
    }
}

/// What a document fails first.
fn first_failure(alloc: Global, document: &Document) -> Result<Option<Failure>, AllocError>
    ensures found { IfOk result (λ found. Tells document.now.state (answer_of document.now)
        (asks_of document.now) found) }
    ensures fits { IsDocument document.now }
{
    let answer = match stated_answer(document) {
        Ok(answer) => answer,
        Err(failure) => return Ok(Some(failure)),
    };
    leaves_failure(alloc, document, &answer)
}
