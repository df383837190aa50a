//! `price require N SIDE RATE [MAX]`, `price uncertain N SIDE RATE`, and each with `-` for what is set.
ghost use Rattle.std.specs.Prelude.{◌≡◌, [], ◌∷◌, codes, option_map, OnOk};
ghost use Rattle.uhura_line.specs.Form as grammar;
ghost use Rattle.uhura_line.specs.Form.{words_of, kind_word, side_word, is_dash_rate, is_dash_price};
ghost use Rattle.uhura_line.specs.Kinds.{kind_said};
ghost use Rattle.uhura_line.specs.Reads.{kind_of, name_of, rated_of, priced_of};
ghost use Rattle.uhura_line.specs.Reader.{rated_part, priced_part, set_in, set_of_kind, price_in};
ghost use Rattle.uhura_line.specs.Parses.{ParsesForm, ParsesAs};
ghost use Rattle.uhura_line.specs.Written.{Writes};

use crate::part::ahead::Ahead;
use crate::part::count::next_three;
use crate::part::item::{ItemKind, put_item};
use crate::part::places::{put_side, read_name, read_side};
use crate::part::priced::{PricedWords, find_set_price, put_set_price, read_side_price};
use crate::part::rates::{RatedWords, find_rate, put_set_rate, read_side_rate};
use crate::{Command, ItemName, LineRefusal};
use std::alloc::AllocError;
use uhura_plan::{Name, Price, Rate, Side};
use uhura_text::Words;

/// The words of the price that is set, or none for `-`.
fn find_new_price<'a>(mut words: Ahead<'a>) -> Option<Option<PricedWords<'a>>>
    ensures { set_in is_dash_price (priced_part []) words.entry ≡ result }
{
    let price = find_set_price(&mut words)?;
    if !words.is_end() {
        return None;
    }
    if price.is_dash() {
        Some(None)
    } else {
        Some(Some(price))
    }
}

/// The words of the rate that is set, or none for `-`.
fn find_new_rate<'a>(mut words: Ahead<'a>) -> Option<Option<RatedWords<'a>>>
    ensures { set_in is_dash_rate rated_part words.entry ≡ result }
{
    let rate = find_rate(&mut words)?;
    if !words.is_end() {
        return None;
    }
    if rate.is_dash() {
        Some(None)
    } else {
        Some(Some(rate))
    }
}

/// The command that sets these words as a price, or why it is none.
fn set_price(
    word: &[u8],
    side: Side,
    words: &Option<PricedWords<'_>>,
) -> Result<Command, LineRefusal>
    ensures { ParsesForm (grammar.price word.now side words.now) result }
{
    let Some(price) = read_side_price(words) else {
        return Err(LineRefusal::Number);
    };
    match read_name(word) {
        Some(name) => Ok(Command::Price { name, side, price }),
        None => Err(LineRefusal::Name),
    }
}

/// The command that sets these words as a rate, or why it is none.
fn set_rate(word: &[u8], side: Side, words: &Option<RatedWords<'_>>) -> Result<Command, LineRefusal>
    ensures { ParsesForm (grammar.rate word.now side words.now) result }
{
    let Some(rate) = read_side_rate(words) else {
        return Err(LineRefusal::Number);
    };
    match read_name(word) {
        Some(name) => Ok(Command::Rate { name, side, rate }),
        None => Err(LineRefusal::Name),
    }
}

/// The command that sets what the words say on the side of a thing of this kind.
fn set_on(kind: ItemKind, word: &[u8], side: Side, words: Ahead<'_>) -> Result<Command, LineRefusal>
    ensures { ParsesAs (set_of_kind (kind_said kind) word.now side words.entry) result }
{
    match kind {
        ItemKind::Require => match find_new_price(words) {
            Some(price) => set_price(word, side, &price),
            None => Err(LineRefusal::Form),
        },
        ItemKind::Uncertain => match find_new_rate(words) {
            Some(rate) => set_rate(word, side, &rate),
            None => Err(LineRefusal::Form),
        },
    }
}

/// Reads the words behind the verb.
pub(crate) fn read(mut words: Words<'_>) -> Result<Command, LineRefusal>
    ensures { ParsesAs (price_in words.entry) result }
{
    let Some((kind, name, side)) = next_three(&mut words) else {
        return Err(LineRefusal::Form);
    };
    let Some(kind) = ItemKind::read(kind) else {
        return Err(LineRefusal::Form);
    };
    match read_side(side) {
        Some(side) => set_on(kind, name, side, Ahead::new(words)),
        None => Err(LineRefusal::Form),
    }
}

/// Appends which price is set: that of a side of a requirement or of a duration.
fn put_at(line: &mut Vec<u8>, item: ItemName, side: Side) -> Result<(), AllocError>
    ensures { let words = codes "price" ∷ kind_word (kind_of item) ∷ name_of item
        ∷ side_word side ∷ [] in
        OnOk result (Writes line.old.items words line.new.items) }
{
    line.extend_from_slice(b"price")?;
    put_item(line, item)?;
    put_side(line, side)
}

/// Appends the words of a price that is set on a side of a requirement.
pub(crate) fn put_price(
    line: &mut Vec<u8>,
    name: Name,
    side: Side,
    price: Option<Price>,
) -> Result<(), AllocError>
    ensures { let form = grammar.price name side (option_map priced_of price) in
        OnOk result (Writes line.old.items (words_of form) line.new.items) }
{
    put_at(line, ItemName::Require(name), side)?;
    put_set_price(line, price)
}

/// Appends the words of a rate that is set on a side of a duration.
pub(crate) fn put_rate(
    line: &mut Vec<u8>,
    name: Name,
    side: Side,
    rate: Option<Rate>,
) -> Result<(), AllocError>
    ensures { let form = grammar.rate name side (option_map rated_of rate) in
        OnOk result (Writes line.old.items (words_of form) line.new.items) }
{
    put_at(line, ItemName::Uncertain(name), side)?;
    put_set_rate(line, rate)
}
