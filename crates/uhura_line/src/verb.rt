//! The verbs: how the words behind each are read, and how its commands are written.
ghost use Rattle.std.specs.Prelude.{◌≡◌, OnOk};
ghost use Rattle.uhura_line.specs.Form.{words_of};
ghost use Rattle.uhura_line.specs.Reads.{form_of};
ghost use Rattle.uhura_line.specs.Parses.{ParsesWords, ParsesAs};
ghost use Rattle.uhura_line.specs.Verbs.{verb_in, form_behind};
ghost use Rattle.uhura_line.specs.Written.{Writes};

mod bound;
mod cap;
mod choice;
mod deny;
mod named;
mod prefer;
mod price;
mod range;
mod require;
mod uncertain;

use crate::{Command, LineRefusal};
use std::alloc::{AllocError, Global};
use uhura_text::Words;

/// What the first word of a line says.
#[derive(Clone, Copy)]
pub(crate) enum Verb {
    Event,
    Uncertain,
    Choice,
    Require,
    Drop,
    Bound,
    Price,
    Range,
    Prefer,
    Deny,
    Cap,
    Withdraw,
    Show,
    Propose,
    Prove,
}

impl Verb {
    /// The verb that a word is.
    fn read(word: &[u8]) -> Option<Verb>
        ensures { result ≡ verb_in word.now }
    {
        if word == b"event".as_slice() {
            return Some(Verb::Event);
        }
        if word == b"uncertain".as_slice() {
            return Some(Verb::Uncertain);
        }
        if word == b"choice".as_slice() {
            return Some(Verb::Choice);
        }
        if word == b"require".as_slice() {
            return Some(Verb::Require);
        }
        if word == b"drop".as_slice() {
            return Some(Verb::Drop);
        }
        if word == b"bound".as_slice() {
            return Some(Verb::Bound);
        }
        if word == b"price".as_slice() {
            return Some(Verb::Price);
        }
        if word == b"range".as_slice() {
            return Some(Verb::Range);
        }
        if word == b"prefer".as_slice() {
            return Some(Verb::Prefer);
        }
        if word == b"deny".as_slice() {
            return Some(Verb::Deny);
        }
        if word == b"cap".as_slice() {
            return Some(Verb::Cap);
        }
        if word == b"withdraw".as_slice() {
            return Some(Verb::Withdraw);
        }
        if word == b"show".as_slice() {
            return Some(Verb::Show);
        }
        if word == b"propose".as_slice() {
            return Some(Verb::Propose);
        }
        if word == b"prove".as_slice() {
            return Some(Verb::Prove);
        }
        None
    }
}

/// The command of a verb and the words behind it.
fn read_behind(alloc: Global, verb: Verb, words: Words<'_>) -> Result<Command, LineRefusal>
    ensures { ParsesAs (form_behind verb words.entry) result }
{
    match verb {
        Verb::Event => named::read_event(words),
        Verb::Uncertain => uncertain::read(words),
        Verb::Choice => choice::read(alloc, words),
        Verb::Require => require::read(alloc, words),
        Verb::Drop => named::read_drop(words),
        Verb::Bound => bound::read(words),
        Verb::Price => price::read(words),
        Verb::Range => range::read(words),
        Verb::Prefer => prefer::read(words),
        Verb::Deny => deny::read(alloc, words),
        Verb::Cap => cap::read(words),
        Verb::Withdraw => named::read_withdraw(words),
        Verb::Show => named::read_show(words),
        Verb::Propose => named::read_propose(words),
        Verb::Prove => named::read_prove(words),
    }
}

/// The command that the words of a line are.
#[tactic(auto, using(crate::proofs::LineLemmas::begun))]
pub(crate) fn read_command(alloc: Global, mut words: Words<'_>) -> Result<Command, LineRefusal>
    ensures { ParsesWords words.entry result }
{
    let Some(word) = words.next() else {
        return Err(LineRefusal::Verb);
    };
    match Verb::read(word) {
        Some(verb) => read_behind(alloc, verb, words),
        None => Err(LineRefusal::Verb),
    }
}

/// Appends the words of a command.
pub fn put_command(line: &mut Vec<u8>, command: &Command) -> Result<(), AllocError>
    ensures { OnOk result (Writes line.old.items (words_of (form_of command.now)) line.new.items) }
{
    match command {
        Command::Event { name } => named::put(line, b"event", *name),
        Command::Uncertain {
            name,
            start,
            end,
            lower,
            upper,
            lower_rate,
            upper_rate,
        } => uncertain::put(
            line,
            (*name, *start, *end),
            (*lower, *upper),
            (*lower_rate, *upper_rate),
        ),
        Command::Choice {
            name,
            alternatives,
            guard,
        } => choice::put(line, *name, alternatives, guard),
        Command::Require {
            name,
            from,
            to,
            lower,
            upper,
            guard,
        } => require::put(line, (*name, *from, *to), *lower, *upper, guard),
        Command::Drop { name } => named::put(line, b"drop", *name),
        Command::Bound { name, side, bound } => bound::put(line, *name, *side, *bound),
        Command::Price { name, side, price } => price::put_price(line, *name, *side, *price),
        Command::Rate { name, side, rate } => price::put_rate(line, *name, *side, *rate),
        Command::Range { name, lower, upper } => range::put(line, *name, (*lower, *upper)),
        Command::Prefer {
            choice,
            alternative,
            cost,
        } => prefer::put(line, *choice, *alternative, *cost),
        Command::Deny { name, literals } => deny::put(line, *name, literals),
        Command::Cap {
            name,
            item,
            side,
            units,
        } => cap::put(line, *name, *item, *side, *units),
        Command::Withdraw { name } => named::put(line, b"withdraw", *name),
        Command::Show => line.extend_from_slice(b"show"),
        Command::Propose => line.extend_from_slice(b"propose"),
        Command::Prove => line.extend_from_slice(b"prove"),
    }
}
