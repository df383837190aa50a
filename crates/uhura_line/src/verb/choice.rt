//! `choice N A COST .. [when C A ..]`
ghost use Rattle.std.specs.Prelude.{ℕ, List, OnOk};
ghost use Rattle.uhura_line.specs.Form as grammar;
ghost use Rattle.uhura_line.specs.Form.{words_of};
ghost use Rattle.uhura_line.specs.Pairs.{HoldsPairs};
ghost use Rattle.uhura_line.specs.Costed.{HoldsCosted};
ghost use Rattle.uhura_line.specs.Reads.{alternative_pairs};
ghost use Rattle.uhura_line.specs.Reader.{choice_in};
ghost use Rattle.uhura_line.specs.Parses.{ParsesForm, ParsesAs};
ghost use Rattle.uhura_line.specs.Written.{Writes};

use super::named;
use crate::part::ahead::Ahead;
use crate::part::costed::{Costed, put_options, read_alternatives};
use crate::part::pairs::{Pairs, read_guard};
use crate::part::places::read_name;
use crate::{Command, LineRefusal, Literals};
use std::alloc::{AllocError, Global};
use uhura_plan::{Alternatives, Name};
use uhura_text::Words;

/// The choice of what was read, or why it is none.
fn make(word: &[u8], alternatives: Costed, guard: Pairs) -> Result<Command, LineRefusal>
    ensures { (a g : List (List ℕ × List ℕ)) → HoldsCosted alternatives a → HoldsPairs guard g
        → ParsesForm (grammar.choice word.now a g) result }
{
    match alternatives {
        Costed::NotNumbers => Err(LineRefusal::Number),
        Costed::NotNames => Err(LineRefusal::Name),
        Costed::Memory(error) => match read_name(word) {
            Some(_) => match guard {
                Pairs::NotNames => Err(LineRefusal::Name),
                Pairs::Memory(_) => Err(LineRefusal::Memory(error)),
                Pairs::Read(_) => Err(LineRefusal::Memory(error)),
            },
            None => Err(LineRefusal::Name),
        },
        Costed::Read(list) => match read_name(word) {
            Some(name) => match guard {
                Pairs::NotNames => Err(LineRefusal::Name),
                Pairs::Memory(error) => Err(LineRefusal::Memory(error)),
                Pairs::Read(pairs) => Ok(Command::Choice {
                    name,
                    alternatives: Alternatives::from_vec(list),
                    guard: Literals::from_vec(pairs),
                }),
            },
            None => Err(LineRefusal::Name),
        },
    }
}

/// Reads the words behind the verb.
pub(crate) fn read(alloc: Global, mut words: Words<'_>) -> Result<Command, LineRefusal>
    ensures { ParsesAs (choice_in words.entry) result }
{
    let Some(word) = words.next() else {
        return Err(LineRefusal::Form);
    };
    let mut ahead = Ahead::new(words);
    if ahead.is_end() {
        return Err(LineRefusal::Form);
    }
    if ahead.begins_with(b"when") {
        return Err(LineRefusal::Form);
    }
    let Some(alternatives) = read_alternatives(alloc, &mut ahead) else {
        return Err(LineRefusal::Form);
    };
    let Some(guard) = read_guard(alloc, ahead) else {
        return Err(LineRefusal::Form);
    };
    make(word, alternatives, guard)
}

/// Appends the words.
pub(crate) fn put(
    line: &mut Vec<u8>,
    name: Name,
    alternatives: &Alternatives,
    guard: &Literals,
) -> Result<(), AllocError>
    ensures { let form = grammar.choice name (alternative_pairs alternatives.now) guard.now in
        OnOk result (Writes line.old.items (words_of form) line.new.items) }
{
    named::put(line, b"choice", name)?;
    put_options(line, alternatives.as_slice(), guard)
}
