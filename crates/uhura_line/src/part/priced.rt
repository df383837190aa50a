//! RATE and MAX: their words, how they are found in a line, what they stand for, and how they are written.
ghost use Rattle.std.specs.Prelude.{◌≡◌, [], option_map, OnOk};
ghost use Rattle.uhura_line.specs.Form.{optional, priced_words, set_words, followers, is_dash_price};
ghost use Rattle.uhura_line.specs.Reads.{is_amount, is_priced, if_there, priced_of, count_word, StandsFor};
ghost use Rattle.uhura_line.specs.Reader.{found, begins_with_one, priced_part};
ghost use Rattle.uhura_line.specs.Written.{Appends};

use super::ahead::Ahead;
use super::places::{put_count, put_word, read_amount};
use super::rates::{RatedWords, find_rate, put_rate, read_rate};
use std::alloc::AllocError;
use std::marker::Model;
use uhura_plan::{Price, Side};

/// The words of a RATE and, where it is there, the word MAX.
#[derive(Drop)]
pub(crate) struct PricedWords<'a> {
    rate: RatedWords<'a>,
    most: Option<&'a [u8]>,
}

impl<'a> Model for PricedWords<'a> {
    ghost use Rattle.std.specs.Prelude.{option_map};
    ghost use Rattle.uhura_line.specs.Form.{Priced};

    ghost Value = { Priced };

    ghost view = { λ p. record { rate = p.rate; most = option_map (λ word. word.now) p.most } };
}

impl<'a> PricedWords<'a> {
    /// Whether the words are `-` alone.
    pub(crate) fn is_dash(&self) -> bool
        ensures { result ≡ is_dash_price self.now }
    {
        self.most.is_none() && self.rate.is_dash()
    }
}

/// Whether the next word begins what may follow the price of a side.
fn is_follower(side: Side, words: &Ahead<'_>) -> bool
    ensures { result ≡ begins_with_one (followers side) words.now }
{
    match side {
        Side::Lower => words.begins_with(b"upper") || words.begins_with(b"when"),
        Side::Upper => words.begins_with(b"when"),
    }
}

/// The words RATE and MAX of a side, where MAX is no word that begins what may follow.
pub(crate) fn find_price<'a>(side: Side, words: &mut Ahead<'a>) -> Option<PricedWords<'a>>
    ensures { priced_part (followers side) words.old ≡ found result words.new }
{
    let rate = find_rate(words)?;
    if is_follower(side, words) {
        return Some(PricedWords { rate, most: None });
    }
    let most = words.next();
    Some(PricedWords { rate, most })
}

/// The words RATE and MAX that a price is set to.
pub(crate) fn find_set_price<'a>(words: &mut Ahead<'a>) -> Option<PricedWords<'a>>
    ensures { priced_part [] words.old ≡ found result words.new }
{
    let rate = find_rate(words)?;
    let most = words.next();
    Some(PricedWords { rate, most })
}

/// The greatest loosening, where there is one.
fn read_most(word: Option<&[u8]>) -> Option<Option<u32>>
    ensures { let words = option_map (λ w. w.now) word.entry in
        StandsFor (if_there is_amount) (option_map count_word) words result }
{
    match word {
        Some(word) => match read_amount(word) {
            Some(most) => Some(Some(most)),
            None => None,
        },
        None => Some(None),
    }
}

/// The price that the words stand for.
pub(crate) fn read_price(words: &PricedWords<'_>) -> Option<Price>
    ensures { StandsFor is_priced priced_of words.now result }
{
    match read_rate(&words.rate) {
        Some(rate) => match read_most(words.most) {
            Some(most) => Some(Price {
                rate: rate.first,
                second: rate.second,
                most,
            }),
            None => None,
        },
        None => None,
    }
}

/// The price of a side, where its words are there.
pub(crate) fn read_side_price(words: &Option<PricedWords<'_>>) -> Option<Option<Price>>
    ensures { StandsFor (if_there is_priced) (option_map priced_of) words.now result }
{
    match words {
        Some(words) => match read_price(words) {
            Some(price) => Some(Some(price)),
            None => None,
        },
        None => Some(None),
    }
}

/// Appends MAX, or nothing.
fn put_most(line: &mut Vec<u8>, most: Option<u32>) -> Result<(), AllocError>
    ensures { let words = optional (option_map count_word most) in
        OnOk result (Appends line.old.items words line.new.items) }
{
    match most {
        Some(most) => put_count(line, most),
        None => Ok(()),
    }
}

/// Appends RATE and, where it is there, MAX.
#[tactic(auto, using(crate::proofs::Spacing::spacing))]
pub(crate) fn put_price(line: &mut Vec<u8>, price: Price) -> Result<(), AllocError>
    ensures { OnOk result (Appends line.old.items (priced_words (priced_of price)) line.new.items) }
{
    put_rate(line, price.per_unit())?;
    put_most(line, price.most)
}

/// Appends a price that is set, or `-` for one that is taken away.
pub(crate) fn put_set_price(line: &mut Vec<u8>, price: Option<Price>) -> Result<(), AllocError>
    ensures { let words = set_words priced_words (option_map priced_of price) in
        OnOk result (Appends line.old.items words line.new.items) }
{
    match price {
        Some(price) => put_price(line, price),
        None => put_word(line, b"-"),
    }
}
