//! Items that are read.
ghost use Rattle.std.specs.Prelude.{◌≡◌, None, true, false, IfOk, IfSome};
ghost use Rattle.std.specs.declared.alloc.AllocError.{AllocError};
ghost use Rattle.uhura_line.specs.declared.refusal.LineRefusal.TheVariants.{Memory};
ghost use Rattle.uhura_text.specs.Words.{words};
ghost use Rattle.uhura_line.specs.Reader.{ended};
ghost use Rattle.uhura_item.specs.Item.{spell, IsItem};
ghost use Rattle.uhura_item.specs.Reader.{item_behind};
ghost use Rattle.uhura_item.specs.Read.{ReadsItem, MayBe, MayBeCommand};

use crate::head::Head;
use crate::leaf::read_leaf;
use crate::write::spelled;
use crate::{Item, behind};
use std::alloc::{AllocError, Global};
use uhura_command::{LineRefusal, parse};
use uhura_line::{ItemKind, LINE_BYTES, is_end};
use uhura_text::{Words, words};

/// The item, where no word is left.
fn alone(words: Words<'_>, item: Item) -> Option<Item>
    requires { IsItem item }
    ensures read { result ≡ ended item words.entry }
    ensures sound { IfSome result IsItem }
{
    if is_end(words) { Some(item) } else { None }
}

/// The item of a first word and the words behind it.
fn read_behind(alloc: Global, head: Head, words: Words<'_>) -> Result<Option<Item>, AllocError>
    ensures read { IfOk result (λ read. read ≡ item_behind head words.entry) }
    ensures sound { IfOk result (λ read. IfSome read IsItem) }
{
    match head {
        Head::Document => Ok(behind::read_version(words)),
        Head::Answer => Ok(alone(words, Item::Answer)),
        Head::Nothing => Ok(alone(words, Item::Nothing)),
        Head::Proposal => Ok(behind::read_proposal(words)),
        Head::Pick => Ok(behind::read_pick(words)),
        Head::Loosen => Ok(behind::read_relax(ItemKind::Require, words)),
        Head::Narrow => Ok(behind::read_relax(ItemKind::Uncertain, words)),
        Head::At => Ok(behind::read_at(words)),
        Head::End => Ok(alone(words, Item::End)),
        Head::Shared => Ok(behind::read_shared(words)),
        Head::Leaf => read_leaf(alloc, words),
        Head::Denied => Ok(behind::read_denied(words)),
        Head::Flow => Ok(alone(words, Item::Flow)),
        Head::Stuck => Ok(alone(words, Item::Stuck)),
        Head::Units => Ok(behind::read_units(words)),
        Head::Edge => Ok(behind::read_edge_line(words)),
        Head::Use => Ok(behind::read_use(words)),
    }
}

/// No item, but for want of memory.
fn pass_on(refusal: LineRefusal) -> Result<Option<Item>, AllocError>
    ensures none { IfOk result (λ read. read ≡ None) }
    ensures other { IfOk result (λ _. (error : AllocError) → refusal ≡ Memory error → ⊥) }
{
    match refusal {
        LineRefusal::Memory(error) => Err(error),
        LineRefusal::Long
        | LineRefusal::Byte { .. }
        | LineRefusal::Verb
        | LineRefusal::Form
        | LineRefusal::Number
        | LineRefusal::Name => Ok(None),
    }
}

/// The command that a line may be.
#[tactic(auto, using(crate::proofs::Finding::parsing))]
fn find_command(alloc: Global, line: &[u8]) -> Result<Option<Item>, AllocError>
    ensures { IfOk result (MayBeCommand line.now) }
{
    match parse(alloc, line) {
        Ok(Some(command)) => Ok(Some(Item::Command(command))),
        Ok(None) => Ok(None),
        Err(refusal) => pass_on(refusal),
    }
}

/// The item that a line may be.
#[tactic(auto, using(crate::proofs::Finding::finding))]
fn find_item(alloc: Global, line: &[u8]) -> Result<Option<Item>, AllocError>
    ensures { IfOk result (MayBe line.now) }
{
    if line.len() > LINE_BYTES {
        return Ok(None);
    }
    match words(line) {
        Ok(all) => find_by_words(alloc, line, all),
        Err(_) => Ok(None),
    }
}

/// The item that a line of these words may be.
#[tactic(auto, using(crate::proofs::Finding::finding))]
fn find_by_words(alloc: Global, line: &[u8], mut all: Words<'_>) -> Result<Option<Item>, AllocError>
    requires { all ≡ words line.now }
    ensures { IfOk result (MayBe line.now) }
{
    let Some(word) = all.next() else {
        return Ok(None);
    };
    match Head::read(word) {
        Some(head) => read_behind(alloc, head, all),
        None => find_command(alloc, line),
    }
}

/// Whether the item is spelled so.
fn is_spelled(alloc: Global, item: &Item, line: &[u8]) -> Result<bool, AllocError>
    requires { IsItem item.now }
    ensures yes { IfOk result (λ is. is ≡ true → spell item.now ≡ line.now) }
    ensures no { IfOk result (λ is. is ≡ false → spell item.now ≡ line.now → ⊥) }
{
    let text = spelled(alloc, item)?;
    Ok(text.as_slice() == line)
}

/// The item that a line is, without its newline: words that are separated by one space, with no other blanks and no
/// comments. `None` where the line is no item's.
#[tactic(auto, using(crate::proofs::Finding::whole))]
pub fn read_item(alloc: Global, line: &[u8]) -> Result<Option<Item>, AllocError>
    ensures { IfOk result (ReadsItem line.now) }
{
    let Some(item) = find_item(alloc, line)? else {
        return Ok(None);
    };
    if is_spelled(alloc, &item, line)? {
        Ok(Some(item))
    } else {
        Ok(None)
    }
}
