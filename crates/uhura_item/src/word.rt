//! Single words of a document's lines, and what they stand for.
ghost use Rattle.std.specs.Prelude.{◌≡◌, ◌≤◌, ◌<◌, ◌^◌, [], ◌∷◌, IfSome, IfNone, Some, None, OnOk};
ghost use Rattle.uhura_plan.specs.Sound.{IsName};
ghost use Rattle.uhura_line.specs.Kinds.{kind_said};
ghost use Rattle.uhura_line.specs.Reads.{count_word};
ghost use Rattle.uhura_line.specs.Written.{Appends};
ghost use Rattle.uhura_item.specs.Item.{edge_kind_word, pick_word};
ghost use Rattle.uhura_item.specs.Reader.{name_in, count_in, edge_kind_in, picked_in, named_as, within, only_one, only_two, only_three};

use crate::EdgeKind;
use std::alloc::AllocError;
use uhura_command::ItemName;
use uhura_line::{ItemKind, put_word};
use uhura_plan::Name;
use uhura_text::{Words, number, put_number};

/// The name that a word is.
pub(crate) fn read_name(word: &[u8]) -> Option<Name>
    ensures name { result ≡ name_in word.now }
    ensures sound { IfSome result IsName }
{
    match Name::read(word) {
        Ok(name) => Some(name),
        Err(_) => None,
    }
}

/// The number from the least to the greatest that a word writes.
pub(crate) fn read_count(word: &[u8], least: u128, greatest: u128) -> Option<u128>
    ensures count { result ≡ count_in least greatest word.now }
    ensures low { IfSome result (λ n. least ≤ n) }
    ensures high { IfSome result (λ n. n ≤ greatest) }
{
    match number(word) {
        Ok(value) => within(value, least, greatest),
        Err(_) => None,
    }
}

/// The number, where it isn't below 0 and is from the least to the greatest.
fn within(value: i128, least: u128, greatest: u128) -> Option<u128>
    ensures count { result ≡ within least greatest value }
    ensures low { IfSome result (λ n. least ≤ n) }
    ensures high { IfSome result (λ n. n ≤ greatest) }
{
    if value < 0 {
        return None;
    }
    let count = value as u128;
    if least <= count && count <= greatest {
        Some(count)
    } else {
        None
    }
}

/// Which of a side's edges a word says.
pub(crate) fn read_edge_kind(word: &[u8]) -> Option<EdgeKind>
    ensures { result ≡ edge_kind_in word.now }
{
    if word == b"loose".as_slice() {
        return Some(EdgeKind::Loose);
    }
    if word == b"steep".as_slice() {
        return Some(EdgeKind::Steep);
    }
    if word == b"firm".as_slice() {
        return Some(EdgeKind::Firm);
    }
    None
}

/// What a word of a leaf picks: `-` picks nothing.
pub(crate) fn read_picked(word: &[u8]) -> Option<Option<Name>>
    ensures picked { result ≡ picked_in word.now }
    ensures sound { IfSome result (λ picked. IfSome picked IsName) }
{
    if word == b"-".as_slice() {
        return Some(None);
    }
    match read_name(word) {
        Some(name) => Some(Some(name)),
        None => None,
    }
}

/// The thing of this kind that has the name.
pub(crate) fn name_as(kind: ItemKind, name: Name) -> ItemName
    ensures { result ≡ named_as (kind_said kind) name }
{
    match kind {
        ItemKind::Require => ItemName::Require(name),
        ItemKind::Uncertain => ItemName::Uncertain(name),
    }
}

/// The one word that is left.
pub(crate) fn only_one<'a>(mut words: Words<'a>) -> Option<&'a [u8]>
    ensures none { IfNone result (only_one words.entry ≡ None) }
    ensures some { IfSome result (λ w. only_one words.entry ≡ Some w.now) }
{
    let first = words.next()?;
    if words.next().is_some() {
        return None;
    }
    Some(first)
}

/// The two words that are left.
pub(crate) fn only_two<'a>(mut words: Words<'a>) -> Option<(&'a [u8], &'a [u8])>
    ensures none { IfNone result (only_two words.entry ≡ None) }
    ensures some { IfSome result (λ w. only_two words.entry ≡ Some (w.0.now, w.1.now)) }
{
    let first = words.next()?;
    let second = words.next()?;
    if words.next().is_some() {
        return None;
    }
    Some((first, second))
}

/// The three words that are left.
pub(crate) fn only_three<'a>(mut words: Words<'a>) -> Option<(&'a [u8], &'a [u8], &'a [u8])>
    ensures none { IfNone result (only_three words.entry ≡ None) }
    ensures some { IfSome result (λ w.
        only_three words.entry ≡ Some (w.0.now, w.1.now, w.2.now)) }
{
    let first = words.next()?;
    let second = words.next()?;
    let third = words.next()?;
    if words.next().is_some() {
        return None;
    }
    Some((first, second, third))
}

/// Appends a number.
pub(crate) fn put_count(line: &mut Vec<u8>, count: u128) -> Result<(), AllocError>
    requires { count < 10 ^ 30 }
    ensures { OnOk result (Appends line.old.items (count_word count ∷ []) line.new.items) }
{
    line.extend_from_slice(b" ")?;
    put_number(line, count as i128)
}

/// Appends which of a side's edges it is.
pub(crate) fn put_edge_kind(line: &mut Vec<u8>, kind: EdgeKind) -> Result<(), AllocError>
    ensures { OnOk result (Appends line.old.items (edge_kind_word kind ∷ []) line.new.items) }
{
    match kind {
        EdgeKind::Loose => put_word(line, b"loose"),
        EdgeKind::Steep => put_word(line, b"steep"),
        EdgeKind::Firm => put_word(line, b"firm"),
    }
}

/// Appends what a leaf picks of a choice.
pub(crate) fn put_picked(line: &mut Vec<u8>, picked: Option<Name>) -> Result<(), AllocError>
    ensures { OnOk result (Appends line.old.items (pick_word picked ∷ []) line.new.items) }
{
    match picked {
        Some(name) => put_word(line, name.bytes()),
        None => put_word(line, b"-"),
    }
}
