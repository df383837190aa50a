//! What kind of thing is named: the words `require` and `uncertain` before a name.
ghost use Rattle.std.specs.Prelude.{◌≡◌, [], ◌∷◌, option_map, OnOk};
ghost use Rattle.uhura_line.specs.Form.{kind_word};
ghost use Rattle.uhura_line.specs.Reader.{kind_in};
ghost use Rattle.uhura_line.specs.Kinds.{kind_said};
ghost use Rattle.uhura_line.specs.Reads.{kind_of, name_of};
ghost use Rattle.uhura_line.specs.Written.{Appends};

use super::places::put_word;
use crate::ItemName;
use std::alloc::AllocError;
use uhura_plan::Name;

/// What kind of thing a name is of.
#[derive(Clone, Copy)]
pub enum ItemKind {
    Require,
    Uncertain,
}

impl ItemKind {
    /// The kind that a word says.
    pub fn read(word: &[u8]) -> Option<ItemKind>
        ensures { option_map kind_said result ≡ kind_in word.now }
    {
        if word == b"require".as_slice() {
            return Some(ItemKind::Require);
        }
        if word == b"uncertain".as_slice() {
            return Some(ItemKind::Uncertain);
        }
        None
    }

    /// The thing of this kind that has the name.
    pub fn name(self, name: Name) -> ItemName
        ensures kind { kind_of result ≡ kind_said self }
        ensures name { name_of result ≡ name }
    {
        match self {
            ItemKind::Require => ItemName::Require(name),
            ItemKind::Uncertain => ItemName::Uncertain(name),
        }
    }
}

/// Appends what kind of thing is named, and its name.
pub fn put_item(line: &mut Vec<u8>, item: ItemName) -> Result<(), AllocError>
    ensures { let words = kind_word (kind_of item) ∷ name_of item ∷ [] in
        OnOk result (Appends line.old.items words line.new.items) }
{
    match item {
        ItemName::Require(name) => {
            put_word(line, b"require")?;
            put_word(line, name.bytes())
        }
        ItemName::Uncertain(name) => {
            put_word(line, b"uncertain")?;
            put_word(line, name.bytes())
        }
    }
}
