//! `range N LO HI`
ghost use Rattle.std.specs.Prelude.{OnOk};
ghost use Rattle.uhura_text.specs.Number.{spelling};
ghost use Rattle.uhura_line.specs.Form as grammar;
ghost use Rattle.uhura_line.specs.Form.{words_of};
ghost use Rattle.uhura_line.specs.Reader.{range_in};
ghost use Rattle.uhura_line.specs.Parses.{ParsesAs};
ghost use Rattle.uhura_line.specs.Written.{Writes};

use super::named;
use crate::part::count::{is_end, next_three};
use crate::part::places::{put_range, read_end, read_name};
use crate::{Command, LineRefusal};
use std::alloc::AllocError;
use uhura_plan::Name;
use uhura_text::Words;

/// Reads the words behind the verb.
pub(crate) fn read(mut words: Words<'_>) -> Result<Command, LineRefusal>
    ensures { ParsesAs (range_in words.entry) result }
{
    let Some((name, low, high)) = next_three(&mut words) else {
        return Err(LineRefusal::Form);
    };
    if !is_end(words) {
        return Err(LineRefusal::Form);
    }
    let Some(lower) = read_end(low) else {
        return Err(LineRefusal::Number);
    };
    let Some(upper) = read_end(high) else {
        return Err(LineRefusal::Number);
    };
    match read_name(name) {
        Some(name) => Ok(Command::Range { name, lower, upper }),
        None => Err(LineRefusal::Name),
    }
}

/// Appends the words.
pub(crate) fn put(line: &mut Vec<u8>, name: Name, range: (i64, i64)) -> Result<(), AllocError>
    ensures { let form = grammar.range name (spelling range.0) (spelling range.1) in
        OnOk result (Writes line.old.items (words_of form) line.new.items) }
{
    named::put(line, b"range", name)?;
    put_range(line, range)
}
