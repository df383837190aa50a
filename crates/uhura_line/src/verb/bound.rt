//! `bound N SIDE BOUND`
ghost use Rattle.std.specs.Prelude.{OnOk};
ghost use Rattle.uhura_line.specs.Form as grammar;
ghost use Rattle.uhura_line.specs.Form.{words_of};
ghost use Rattle.uhura_line.specs.Reads.{bound_word};
ghost use Rattle.uhura_line.specs.Reader.{bound_in};
ghost use Rattle.uhura_line.specs.Parses.{ParsesAs};
ghost use Rattle.uhura_line.specs.Written.{Writes};

use super::named;
use crate::part::count::{is_end, next_three};
use crate::part::places::{put_bound, put_side, read_bound, read_name, read_side};
use crate::{Command, LineRefusal};
use std::alloc::AllocError;
use uhura_plan::{Name, Side};
use uhura_text::Words;

/// Reads the words behind the verb.
pub(crate) fn read(mut words: Words<'_>) -> Result<Command, LineRefusal>
    ensures { ParsesAs (bound_in words.entry) result }
{
    let Some((name, side, bound)) = next_three(&mut words) else {
        return Err(LineRefusal::Form);
    };
    if !is_end(words) {
        return Err(LineRefusal::Form);
    }
    let Some(side) = read_side(side) else {
        return Err(LineRefusal::Form);
    };
    let Some(bound) = read_bound(bound) else {
        return Err(LineRefusal::Number);
    };
    match read_name(name) {
        Some(name) => Ok(Command::Bound { name, side, bound }),
        None => Err(LineRefusal::Name),
    }
}

/// Appends the words.
pub(crate) fn put(
    line: &mut Vec<u8>,
    name: Name,
    side: Side,
    bound: Option<i64>,
) -> Result<(), AllocError>
    ensures { let form = grammar.bound name side (bound_word bound) in
        OnOk result (Writes line.old.items (words_of form) line.new.items) }
{
    named::put(line, b"bound", name)?;
    put_side(line, side)?;
    put_bound(line, bound)
}
