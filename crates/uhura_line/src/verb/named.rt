//! The verbs that a name alone follows, and those that stand alone.
ghost use Rattle.std.specs.Prelude.{[], ◌∷◌, OnOk};
ghost use Rattle.uhura_line.specs.Form as grammar;
ghost use Rattle.uhura_line.specs.Reader.{bare_in, named_in};
ghost use Rattle.uhura_line.specs.Parses.{ParsesAs};
ghost use Rattle.uhura_line.specs.Written.{Writes};

use crate::part::count::is_end;
use crate::part::places::{put_word, read_name};
use crate::{Command, LineRefusal};
use std::alloc::AllocError;
use uhura_plan::Name;
use uhura_text::Words;

/// `event N`, from the words behind the verb.
pub(crate) fn read_event(mut words: Words<'_>) -> Result<Command, LineRefusal>
    ensures { ParsesAs (named_in grammar.event words.entry) result }
{
    let Some(word) = words.next() else {
        return Err(LineRefusal::Form);
    };
    if !is_end(words) {
        return Err(LineRefusal::Form);
    }
    match read_name(word) {
        Some(name) => Ok(Command::Event { name }),
        None => Err(LineRefusal::Name),
    }
}

/// `drop N`, from the words behind the verb.
pub(crate) fn read_drop(mut words: Words<'_>) -> Result<Command, LineRefusal>
    ensures { ParsesAs (named_in grammar.drop words.entry) result }
{
    let Some(word) = words.next() else {
        return Err(LineRefusal::Form);
    };
    if !is_end(words) {
        return Err(LineRefusal::Form);
    }
    match read_name(word) {
        Some(name) => Ok(Command::Drop { name }),
        None => Err(LineRefusal::Name),
    }
}

/// `withdraw V`, from the words behind the verb.
pub(crate) fn read_withdraw(mut words: Words<'_>) -> Result<Command, LineRefusal>
    ensures { ParsesAs (named_in grammar.withdraw words.entry) result }
{
    let Some(word) = words.next() else {
        return Err(LineRefusal::Form);
    };
    if !is_end(words) {
        return Err(LineRefusal::Form);
    }
    match read_name(word) {
        Some(name) => Ok(Command::Withdraw { name }),
        None => Err(LineRefusal::Name),
    }
}

/// `show`, from the words behind the verb.
pub(crate) fn read_show(words: Words<'_>) -> Result<Command, LineRefusal>
    ensures { ParsesAs (bare_in grammar.show words.entry) result }
{
    if is_end(words) {
        Ok(Command::Show)
    } else {
        Err(LineRefusal::Form)
    }
}

/// `propose`, from the words behind the verb.
pub(crate) fn read_propose(words: Words<'_>) -> Result<Command, LineRefusal>
    ensures { ParsesAs (bare_in grammar.propose words.entry) result }
{
    if is_end(words) {
        Ok(Command::Propose)
    } else {
        Err(LineRefusal::Form)
    }
}

/// `prove`, from the words behind the verb.
pub(crate) fn read_prove(words: Words<'_>) -> Result<Command, LineRefusal>
    ensures { ParsesAs (bare_in grammar.prove words.entry) result }
{
    if is_end(words) {
        Ok(Command::Prove)
    } else {
        Err(LineRefusal::Form)
    }
}

/// Appends a verb and a name.
pub(crate) fn put(line: &mut Vec<u8>, verb: &[u8], name: Name) -> Result<(), AllocError>
    ensures { OnOk result (Writes line.old.items (verb.now ∷ name ∷ []) line.new.items) }
{
    line.extend_from_slice(verb)?;
    put_word(line, name.bytes())
}
