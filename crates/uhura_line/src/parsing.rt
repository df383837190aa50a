//! The command that a line gives.
ghost use Rattle.std.specs.Prelude.{◌≡◌};
ghost use Rattle.uhura_line.specs.Parses.{Parses};

use crate::verb::read_command;
use crate::{Command, LineRefusal};
use std::alloc::Global;
use uhura_text::{is_quiet, words};

/// The most bytes of a line, without its newline.
pub const LINE_BYTES: usize = 4096;

/// The command that a line gives, without its newline, or `None` for a blank line and for a comment. Of several
/// causes the refusal is the first of `LineRefusal`; memory is taken for the pairs of a choice, a guard and a denial
/// alone.
#[tactic(auto, using(crate::proofs::LineLemmas::lines))]
pub fn parse(alloc: Global, line: &[u8]) -> Result<Option<Command>, LineRefusal>
    ensures { Parses line.now result }
{
    if line.len() > LINE_BYTES {
        return Err(LineRefusal::Long);
    }
    if is_quiet(line) {
        return Ok(None);
    }
    match words(line) {
        Ok(words) => match read_command(alloc, words) {
            Ok(command) => Ok(Some(command)),
            Err(refusal) => Err(refusal),
        },
        Err(bad) => Err(LineRefusal::Byte { at: bad.at }),
    }
}
