//! The words behind the first one of a line that is no command, as they are read.
ghost use Rattle.std.specs.Prelude.{◌≡◌, IfSome, IfOk};
ghost use Rattle.uhura_line.specs.Kinds.{kind_said};
ghost use Rattle.uhura_line.specs.Reader.{ended};
ghost use Rattle.uhura_item.specs.Item.{IsItem};
ghost use Rattle.uhura_item.specs.declared.item.Item.TheVariants as item;
ghost use Rattle.uhura_item.specs.Reader.{version_in, proposal_in, pick_in, relax_in, at_in, shared_in, denied_in, units_in, edge_in, use_in};

use crate::edge::read_edge;
use crate::word::{name_as, only_one, only_three, only_two, read_count, read_name};
use crate::{EDGE_UNITS, ENTRY, GREATEST_COST, Item, LATEST, SIDE_UNITS};
use uhura_line::{ItemKind, read_side};
use uhura_text::Words;

/// `document VERSION`
pub(crate) fn read_version(words: Words<'_>) -> Option<Item>
    ensures read { result ≡ version_in words.entry }
    ensures sound { IfSome result IsItem }
{
    let version = read_count(only_one(words)?, 1, 2)?;
    Some(Item::Version(version as u32))
}

/// `proposal COST`
pub(crate) fn read_proposal(words: Words<'_>) -> Option<Item>
    ensures read { result ≡ proposal_in words.entry }
    ensures sound { IfSome result IsItem }
{
    let cost = read_count(only_one(words)?, 0, GREATEST_COST)?;
    Some(Item::Proposal(cost))
}

/// `pick C A`
pub(crate) fn read_pick(words: Words<'_>) -> Option<Item>
    ensures read { result ≡ pick_in words.entry }
    ensures sound { IfSome result IsItem }
{
    let (choice, alternative) = only_two(words)?;
    let choice = read_name(choice)?;
    let alternative = read_name(alternative)?;
    Some(Item::Pick(choice, alternative))
}

/// `loosen N SIDE UNITS` and `narrow N SIDE UNITS`
pub(crate) fn read_relax(kind: ItemKind, words: Words<'_>) -> Option<Item>
    ensures read { result ≡ relax_in (kind_said kind) words.entry }
    ensures sound { IfSome result IsItem }
{
    let (name, side, units) = only_three(words)?;
    let name = read_name(name)?;
    let side = read_side(side)?;
    let units = read_count(units, 1, u128::from(SIDE_UNITS))?;
    Some(Item::Relax(name_as(kind, name), side, units as u64))
}

/// `at E T`
pub(crate) fn read_at(words: Words<'_>) -> Option<Item>
    ensures read { result ≡ at_in words.entry }
    ensures sound { IfSome result IsItem }
{
    let (event, time) = only_two(words)?;
    let event = read_name(event)?;
    let time = read_count(time, 0, u128::from(LATEST))?;
    Some(Item::At(event, time as u64))
}

/// `shared flow` and `shared stuck`
pub(crate) fn read_shared(words: Words<'_>) -> Option<Item>
    ensures read { result ≡ shared_in words.entry }
    ensures sound { IfSome result IsItem }
{
    let word = only_one(words)?;
    if word == b"flow".as_slice() {
        return Some(Item::SharedFlow);
    }
    if word == b"stuck".as_slice() {
        return Some(Item::SharedStuck);
    }
    None
}

/// `denied V`
pub(crate) fn read_denied(words: Words<'_>) -> Option<Item>
    ensures read { result ≡ denied_in words.entry }
    ensures sound { IfSome result IsItem }
{
    let veto = read_name(only_one(words)?)?;
    Some(Item::Denied(veto))
}

/// `units EDGE UNITS`
pub(crate) fn read_units(mut words: Words<'_>) -> Option<Item>
    ensures read { result ≡ units_in words.entry }
    ensures sound { IfSome result IsItem }
{
    let edge = read_edge(&mut words)?;
    let units = read_count(only_one(words)?, 1, u128::from(EDGE_UNITS))?;
    Some(Item::Units(edge, units as u64))
}

/// `edge EDGE`
pub(crate) fn read_edge_line(mut words: Words<'_>) -> Option<Item>
    ensures read { result ≡ edge_in words.entry }
    ensures sound { IfSome result IsItem }
{
    let edge = read_edge(&mut words)?;
    if words.next().is_some() {
        return None;
    }
    Some(Item::Edge(edge))
}

/// `use K`
pub(crate) fn read_use(words: Words<'_>) -> Option<Item>
    ensures read { result ≡ use_in words.entry }
    ensures sound { IfSome result IsItem }
{
    let entry = read_count(only_one(words)?, 0, u128::from(ENTRY))?;
    Some(Item::Use(entry as u32))
}
