//! Edges by their names: `require N SIDE KIND`, `uncertain N SIDE KIND` and `uncertain N order`.
ghost use Rattle.std.specs.Prelude.{◌≡◌, Some, None, IfSome, IfNone, OnOk};
ghost use Rattle.uhura_plan.specs.Sound.{IsName};
ghost use Rattle.uhura_line.specs.Kinds.{kind_said};
ghost use Rattle.uhura_line.specs.Written.{Appends};
ghost use Rattle.uhura_item.specs.Item.{edge_words, IsEdgeName};
ghost use Rattle.uhura_item.specs.Reader.{side_edge, edge_of, edge_part};

use crate::EdgeName;
use crate::word::{name_as, put_edge_kind, read_edge_kind, read_name};
use std::alloc::AllocError;
use uhura_line::{ItemKind, next_three, put_item, put_side, put_word, read_side};
use uhura_plan::Name;
use uhura_text::Words;

/// Reads the edge of a side: the word is the side's, and which edge it is stands behind it.
fn read_side_edge(
    kind: ItemKind,
    name: Name,
    word: &[u8],
    words: &mut Words<'_>,
) -> Option<EdgeName>
    requires { IsName name }
    ensures none { IfNone result (side_edge (kind_said kind) name word.now words.old ≡ None) }
    ensures some { IfSome result (λ e.
        side_edge (kind_said kind) name word.now words.old ≡ Some (e, words.new)) }
    ensures sound { IfSome result IsEdgeName }
{
    let next = words.next()?;
    let side = read_side(word)?;
    let which = read_edge_kind(next)?;
    Some(EdgeName::Side(name_as(kind, name), side, which))
}

/// Reads the edge of a thing of this kind and name: the word is a side's, or `order`.
fn read_edge_of(kind: ItemKind, name: Name, word: &[u8], words: &mut Words<'_>) -> Option<EdgeName>
    requires { IsName name }
    ensures none { IfNone result (edge_of (kind_said kind) name word.now words.old ≡ None) }
    ensures some { IfSome result (λ e.
        edge_of (kind_said kind) name word.now words.old ≡ Some (e, words.new)) }
    ensures sound { IfSome result IsEdgeName }
{
    match kind {
        ItemKind::Require => read_side_edge(kind, name, word, words),
        ItemKind::Uncertain => {
            if word == b"order".as_slice() {
                return Some(EdgeName::Order(name));
            }
            read_side_edge(kind, name, word, words)
        }
    }
}

/// Reads the edge that the words begin with.
pub(crate) fn read_edge(words: &mut Words<'_>) -> Option<EdgeName>
    ensures none { IfNone result (edge_part words.old ≡ None) }
    ensures some { IfSome result (λ e. edge_part words.old ≡ Some (e, words.new)) }
    ensures sound { IfSome result IsEdgeName }
{
    let (kind, name, word) = next_three(words)?;
    let kind = ItemKind::read(kind)?;
    let name = read_name(name)?;
    read_edge_of(kind, name, word, words)
}

/// Appends the words of an edge.
pub(crate) fn put_edge(line: &mut Vec<u8>, edge: EdgeName) -> Result<(), AllocError>
    ensures { OnOk result (Appends line.old.items (edge_words edge) line.new.items) }
{
    match edge {
        EdgeName::Side(item, side, kind) => {
            put_item(line, item)?;
            put_side(line, side)?;
            put_edge_kind(line, kind)
        }
        EdgeName::Order(name) => {
            put_word(line, b"uncertain")?;
            put_word(line, name.bytes())?;
            put_word(line, b"order")
        }
    }
}
