//! `cap V require N SIDE UNITS` and `cap V uncertain N SIDE UNITS`
ghost use Rattle.std.specs.Prelude.{OnOk};
ghost use Rattle.uhura_line.specs.Form as grammar;
ghost use Rattle.uhura_line.specs.Form.{words_of};
ghost use Rattle.uhura_line.specs.Reads.{kind_of, name_of, count_word};
ghost use Rattle.uhura_line.specs.Reader.{cap_in};
ghost use Rattle.uhura_line.specs.Parses.{ParsesAs};
ghost use Rattle.uhura_line.specs.Written.{Writes};

use super::named;
use crate::part::count::{is_end, next_five};
use crate::part::item::{ItemKind, put_item};
use crate::part::places::{put_count, put_side, read_amount, read_name, read_side};
use crate::{Command, ItemName, LineRefusal};
use std::alloc::AllocError;
use uhura_plan::{Name, Side};
use uhura_text::Words;

/// Reads the words behind the verb.
pub(crate) fn read(mut words: Words<'_>) -> Result<Command, LineRefusal>
    ensures { ParsesAs (cap_in words.entry) result }
{
    let Some((veto, kind, item, side, units)) = next_five(&mut words) else {
        return Err(LineRefusal::Form);
    };
    let Some(kind) = ItemKind::read(kind) else {
        return Err(LineRefusal::Form);
    };
    let Some(side) = read_side(side) else {
        return Err(LineRefusal::Form);
    };
    if !is_end(words) {
        return Err(LineRefusal::Form);
    }
    let Some(units) = read_amount(units) else {
        return Err(LineRefusal::Number);
    };
    let Some(name) = read_name(veto) else {
        return Err(LineRefusal::Name);
    };
    match read_name(item) {
        Some(item) => Ok(Command::Cap {
            name,
            item: kind.name(item),
            side,
            units,
        }),
        None => Err(LineRefusal::Name),
    }
}

/// Appends the words.
pub(crate) fn put(
    line: &mut Vec<u8>,
    name: Name,
    item: ItemName,
    side: Side,
    units: u32,
) -> Result<(), AllocError>
    ensures { let form = grammar.cap name (kind_of item) (name_of item) side (count_word units) in
        OnOk result (Writes line.old.items (words_of form) line.new.items) }
{
    named::put(line, b"cap", name)?;
    put_item(line, item)?;
    put_side(line, side)?;
    put_count(line, units)
}
