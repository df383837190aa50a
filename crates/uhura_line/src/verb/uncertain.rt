//! `uncertain N START END LO HI [lower RATE] [upper RATE]`
ghost use Rattle.std.specs.Prelude.{option_map, OnOk};
ghost use Rattle.uhura_text.specs.Number.{spelling};
ghost use Rattle.uhura_line.specs.Form as grammar;
ghost use Rattle.uhura_line.specs.Form.{words_of};
ghost use Rattle.uhura_line.specs.Reads.{rated_of};
ghost use Rattle.uhura_line.specs.Reader.{uncertain_in};
ghost use Rattle.uhura_line.specs.Parses.{ParsesForm, ParsesAs};
ghost use Rattle.uhura_line.specs.Written.{Writes};

use crate::part::ahead::Ahead;
use crate::part::count::next_five;
use crate::part::places::{put_between, put_range, read_end, read_name};
use crate::part::rates::{RatedWords, read_side_rate};
use crate::part::sides::{find_rates, put_rates};
use crate::{Command, LineRefusal};
use std::alloc::AllocError;
use uhura_plan::{Name, Rate};
use uhura_text::Words;

/// The duration that the words at its places say, or why they say none.
fn make(
    names: (&[u8], &[u8], &[u8]),
    range: (&[u8], &[u8]),
    rates: &(Option<RatedWords<'_>>, Option<RatedWords<'_>>),
) -> Result<Command, LineRefusal>
    ensures { let form = grammar.uncertain
        names.entry.0.now names.entry.1.now names.entry.2.now
        range.entry.0.now range.entry.1.now rates.now.0 rates.now.1 in
        ParsesForm form result }
{
    let Some(lower) = read_end(range.0) else {
        return Err(LineRefusal::Number);
    };
    let Some(upper) = read_end(range.1) else {
        return Err(LineRefusal::Number);
    };
    let Some(lower_rate) = read_side_rate(&rates.0) else {
        return Err(LineRefusal::Number);
    };
    let Some(upper_rate) = read_side_rate(&rates.1) else {
        return Err(LineRefusal::Number);
    };
    let Some(name) = read_name(names.0) else {
        return Err(LineRefusal::Name);
    };
    let Some(start) = read_name(names.1) else {
        return Err(LineRefusal::Name);
    };
    let Some(end) = read_name(names.2) else {
        return Err(LineRefusal::Name);
    };
    Ok(Command::Uncertain {
        name,
        start,
        end,
        lower,
        upper,
        lower_rate,
        upper_rate,
    })
}

/// Reads the words behind the verb.
pub(crate) fn read(mut words: Words<'_>) -> Result<Command, LineRefusal>
    ensures { ParsesAs (uncertain_in words.entry) result }
{
    let Some((name, start, end, low, high)) = next_five(&mut words) else {
        return Err(LineRefusal::Form);
    };
    match find_rates(Ahead::new(words)) {
        Some(rates) => make((name, start, end), (low, high), &rates),
        None => Err(LineRefusal::Form),
    }
}

/// Appends the words.
pub(crate) fn put(
    line: &mut Vec<u8>,
    names: (Name, Name, Name),
    range: (i64, i64),
    rates: (Option<Rate>, Option<Rate>),
) -> Result<(), AllocError>
    ensures { let form = grammar.uncertain names.0 names.1 names.2
        (spelling range.0) (spelling range.1)
        (option_map rated_of rates.0) (option_map rated_of rates.1) in
        OnOk result (Writes line.old.items (words_of form) line.new.items) }
{
    put_between(line, b"uncertain", names)?;
    put_range(line, range)?;
    put_rates(line, rates)
}
