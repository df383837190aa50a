//! `deny V C A ..`
ghost use Rattle.std.specs.Prelude.{OnOk};
ghost use Rattle.uhura_line.specs.Form as grammar;
ghost use Rattle.uhura_line.specs.Form.{words_of};
ghost use Rattle.uhura_line.specs.Reader.{deny_in};
ghost use Rattle.uhura_line.specs.Parses.{ParsesAs};
ghost use Rattle.uhura_line.specs.Written.{Writes};

use super::named;
use crate::part::ahead::Ahead;
use crate::part::pairs::{Pairs, put_pairs, read_pairs};
use crate::part::places::read_name;
use crate::{Command, LineRefusal, Literals};
use std::alloc::{AllocError, Global};
use uhura_plan::Name;
use uhura_text::Words;

/// Reads the words behind the verb.
pub(crate) fn read(alloc: Global, mut words: Words<'_>) -> Result<Command, LineRefusal>
    ensures { ParsesAs (deny_in words.entry) result }
{
    let Some(word) = words.next() else {
        return Err(LineRefusal::Form);
    };
    let literals = Ahead::new(words);
    if literals.is_end() {
        return Err(LineRefusal::Form);
    }
    let Some(pairs) = read_pairs(alloc, literals) else {
        return Err(LineRefusal::Form);
    };
    let Some(name) = read_name(word) else {
        return Err(LineRefusal::Name);
    };
    match pairs {
        Pairs::Read(list) => Ok(Command::Deny {
            name,
            literals: Literals::from_vec(list),
        }),
        Pairs::Memory(error) => Err(LineRefusal::Memory(error)),
        Pairs::NotNames => Err(LineRefusal::Name),
    }
}

/// Appends the words.
pub(crate) fn put(line: &mut Vec<u8>, name: Name, literals: &Literals) -> Result<(), AllocError>
    ensures { let form = grammar.deny name literals.now in
        OnOk result (Writes line.old.items (words_of form) line.new.items) }
{
    named::put(line, b"deny", name)?;
    put_pairs(line, literals.as_slice())
}
