//! Items that are written.
ghost use Rattle.std.specs.Prelude.{◌≡◌, ◌++◌, ◌∷◌, ◌<◌, ◌^◌, [], IfOk, OnOk, OnErr};
ghost use Rattle.uhura_line.specs.Reads.{count_word, kind_of, name_of};
ghost use Rattle.uhura_line.specs.Form.{Word, side_word};
ghost use Rattle.uhura_line.specs.Written.{Writes, joined};
ghost use Rattle.uhura_item.specs.Item.{item_words, relax_word, spell, item_line, IsItem};

use crate::Item;
use crate::edge::put_edge;
use crate::leaf::put_picks;
use crate::word::put_count;
use std::alloc::{AllocError, Global};
use uhura_command::ItemName;
use uhura_line::{put_command, put_side, put_word};
use uhura_plan::{Name, Side};

/// Writes a word and a number.
fn put_numbered(line: &mut Vec<u8>, word: &[u8], count: u128) -> Result<(), AllocError>
    requires { count < 10 ^ 30 }
    ensures { let words = word.now ∷ count_word count ∷ [] in
        OnOk result (Writes line.old.items words line.new.items) }
{
    line.extend_from_slice(word)?;
    put_count(line, count)
}

/// Writes a pick.
fn put_pick(line: &mut Vec<u8>, choice: Name, alternative: Name) -> Result<(), AllocError>
    ensures { OnOk result
        (Writes line.old.items (item_words (Item.Pick choice alternative)) line.new.items) }
{
    line.extend_from_slice(b"pick")?;
    put_word(line, choice.bytes())?;
    put_word(line, alternative.bytes())
}

/// Writes the name of what is loosened or narrowed, behind the word that says which.
fn put_relaxed(line: &mut Vec<u8>, item: ItemName) -> Result<(), AllocError>
    ensures { let words = relax_word (kind_of item) ∷ name_of item ∷ [] in
        OnOk result (Writes line.old.items words line.new.items) }
{
    match item {
        ItemName::Require(name) => {
            line.extend_from_slice(b"loosen")?;
            put_word(line, name.bytes())
        }
        ItemName::Uncertain(name) => {
            line.extend_from_slice(b"narrow")?;
            put_word(line, name.bytes())
        }
    }
}

/// Writes a side with its units.
fn put_relax(line: &mut Vec<u8>, item: ItemName, side: Side, units: u64) -> Result<(), AllocError>
    ensures { OnOk result
        (Writes line.old.items (item_words (Item.Relax item side units)) line.new.items) }
{
    put_relaxed(line, item)?;
    put_side(line, side)?;
    put_count(line, u128::from(units))
}

/// Writes the time of an event.
fn put_at(line: &mut Vec<u8>, event: Name, time: u64) -> Result<(), AllocError>
    ensures { OnOk result (Writes line.old.items (item_words (Item.At event time)) line.new.items) }
{
    line.extend_from_slice(b"at")?;
    put_word(line, event.bytes())?;
    put_count(line, u128::from(time))
}

/// Writes the words of an item.
fn put_words(line: &mut Vec<u8>, item: &Item) -> Result<(), AllocError>
    requires { IsItem item.now }
    ensures { OnOk result (Writes line.old.items (item_words item.now) line.new.items) }
{
    match item {
        Item::Version(version) => put_numbered(line, b"document", u128::from(*version)),
        Item::Command(command) => put_command(line, command),
        Item::Answer => line.extend_from_slice(b"answer"),
        Item::Nothing => line.extend_from_slice(b"none"),
        Item::Proposal(cost) => put_numbered(line, b"proposal", *cost),
        Item::Pick(choice, alternative) => put_pick(line, *choice, *alternative),
        Item::Relax(item, side, units) => put_relax(line, *item, *side, *units),
        Item::At(event, time) => put_at(line, *event, *time),
        Item::End => line.extend_from_slice(b"end"),
        Item::SharedFlow => line.extend_from_slice(b"shared flow"),
        Item::SharedStuck => line.extend_from_slice(b"shared stuck"),
        Item::Leaf(picks) => {
            line.extend_from_slice(b"leaf")?;
            put_picks(line, picks)
        }
        Item::Denied(veto) => {
            line.extend_from_slice(b"denied")?;
            put_word(line, veto.bytes())
        }
        Item::Flow => line.extend_from_slice(b"flow"),
        Item::Stuck => line.extend_from_slice(b"stuck"),
        Item::Units(edge, units) => {
            line.extend_from_slice(b"units")?;
            put_edge(line, *edge)?;
            put_count(line, u128::from(*units))
        }
        Item::Edge(edge) => {
            line.extend_from_slice(b"edge")?;
            put_edge(line, *edge)
        }
        Item::Use(entry) => put_numbered(line, b"use", u128::from(*entry)),
    }
}

/// The line of an item, without its newline.
pub(crate) fn spelled(alloc: Global, item: &Item) -> Result<Vec<u8>, AllocError>
    requires { IsItem item.now }
    ensures { IfOk result (λ line. line.items ≡ spell item.now) }
{
    let mut line = Vec::new(alloc);
    put_words(&mut line, item)?;
    Ok(line)
}

/// Appends the line of an item, with its newline.
pub fn put_item(out: &mut Vec<u8>, item: &Item) -> Result<(), AllocError>
    requires { IsItem item.now }
    ensures ok { OnOk result (out.new.items ≡ out.old.items ++ item_line item.now) }
    ensures err { OnErr result (out.new.items ≡ out.old.items) }
{
    let mut line = spelled(out.allocator().clone()?, item)?;
    line.extend_from_slice(b"\n")?;
    out.extend_from_slice(line.as_slice())
}
