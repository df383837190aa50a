//! `prefer C A COST`
ghost use Rattle.std.specs.Prelude.{OnOk};
ghost use Rattle.uhura_line.specs.Form as grammar;
ghost use Rattle.uhura_line.specs.Form.{words_of};
ghost use Rattle.uhura_line.specs.Reads.{count_word};
ghost use Rattle.uhura_line.specs.Reader.{prefer_in};
ghost use Rattle.uhura_line.specs.Parses.{ParsesAs};
ghost use Rattle.uhura_line.specs.Written.{Writes};

use super::named;
use crate::part::count::{is_end, next_three};
use crate::part::places::{put_count, put_word, read_amount, read_name};
use crate::{Command, LineRefusal};
use std::alloc::AllocError;
use uhura_plan::Name;
use uhura_text::Words;

/// Reads the words behind the verb.
pub(crate) fn read(mut words: Words<'_>) -> Result<Command, LineRefusal>
    ensures { ParsesAs (prefer_in words.entry) result }
{
    let Some((choice, alternative, cost)) = next_three(&mut words) else {
        return Err(LineRefusal::Form);
    };
    if !is_end(words) {
        return Err(LineRefusal::Form);
    }
    let Some(cost) = read_amount(cost) else {
        return Err(LineRefusal::Number);
    };
    let Some(choice) = read_name(choice) else {
        return Err(LineRefusal::Name);
    };
    match read_name(alternative) {
        Some(alternative) => Ok(Command::Prefer {
            choice,
            alternative,
            cost,
        }),
        None => Err(LineRefusal::Name),
    }
}

/// Appends the words.
pub(crate) fn put(
    line: &mut Vec<u8>,
    choice: Name,
    alternative: Name,
    cost: u32,
) -> Result<(), AllocError>
    ensures { let form = grammar.prefer choice alternative (count_word cost) in
        OnOk result (Writes line.old.items (words_of form) line.new.items) }
{
    named::put(line, b"prefer", choice)?;
    put_word(line, alternative.bytes())?;
    put_count(line, cost)
}
