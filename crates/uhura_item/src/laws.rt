//! The laws of a document's lines: a line is of one item, none is long, and items that are written one behind the other
//! are so many lines.
ghost use Rattle.std.specs.Prelude.{◌≡◌, ◌≤◌, List, length, map, flat_map};
ghost use Rattle.std.specs.List.{AllByRecursion};
ghost use Rattle.uhura_text.specs.Lines.{lines};
ghost use Rattle.uhura_line.specs.declared.parsing.TheConstants.{LINE_BYTES};
ghost use Rattle.uhura_item.specs.declared.item.Item.{Item};
ghost use Rattle.uhura_item.specs.Item.{spell, item_line, IsItem};

/// No two items are spelled alike, and no item is spelled by more bytes than a line may have.
pub fn a_line_has_one_item()
    ensures one { (i j : Item) → IsItem i → IsItem j → spell i ≡ spell j → i ≡ j }
    ensures short { (i : Item) → IsItem i → length (spell i) ≤ LINE_BYTES }
{}

/// What is written of items is one line for each.
pub fn written_items_are_lines()
    ensures { (items : List Item) → AllByRecursion IsItem items →
        lines (flat_map item_line items) ≡ map spell items }
{}
