//! RATE: its words, how they are found in a line, what they stand for, and how they are written.
ghost use Rattle.std.specs.Prelude.{◌≡◌, ◌&&◌, true, option_map, OnOk};
ghost use Rattle.uhura_line.specs.Form.{past_words, rated_words, set_words, is_dash_rate};
ghost use Rattle.uhura_line.specs.Reads.{if_there, is_first, is_units, is_above, is_past, is_rated, past_of, rated_of, count_word, StandsFor};
ghost use Rattle.uhura_line.specs.Reader.{found, units_and_price, past_part, rated_part};
ghost use Rattle.uhura_line.specs.Written.{Appends};

use super::ahead::Ahead;
use super::places::{put_count, put_word, read_above, read_first, read_units};
use std::alloc::AllocError;
use std::marker::Model;
use uhura_plan::{Rate, Second};

/// The words UNITS and PRICE of a second price.
#[derive(Drop)]
pub(crate) struct PastWords<'a> {
    units: &'a [u8],
    price: &'a [u8],
}

impl<'a> Model for PastWords<'a> {
    ghost use Rattle.uhura_line.specs.Form.{Past};

    ghost Value = { Past };

    ghost view = { λ p. record { units = p.units.now; price = p.price.now } };
}

/// The word PRICE and, where they are there, the words of a second price.
#[derive(Drop)]
pub(crate) struct RatedWords<'a> {
    first: &'a [u8],
    second: Option<PastWords<'a>>,
}

impl<'a> Model for RatedWords<'a> {
    ghost use Rattle.uhura_line.specs.Form.{Rated};

    ghost Value = { Rated };

    ghost view = { λ r. record { first = r.first.now; second = r.second } };
}

impl<'a> RatedWords<'a> {
    /// Whether the words are `-` alone.
    pub(crate) fn is_dash(&self) -> bool
        ensures { result ≡ is_dash_rate self.now }
    {
        self.second.is_none() && self.first == b"-".as_slice()
    }
}

/// The words UNITS and PRICE.
fn find_units_and_price<'a>(words: &mut Ahead<'a>) -> Option<Option<PastWords<'a>>>
    ensures { units_and_price words.old ≡ found result words.new }
{
    let units = words.next()?;
    let price = words.next()?;
    Some(Some(PastWords { units, price }))
}

/// The words of a second price, where the next word is `past`.
fn find_second<'a>(words: &mut Ahead<'a>) -> Option<Option<PastWords<'a>>>
    ensures { past_part words.old ≡ found result words.new }
{
    if !words.begins_with(b"past") {
        return Some(None);
    }
    let _past = words.next()?;
    find_units_and_price(words)
}

/// The words of a RATE.
pub(crate) fn find_rate<'a>(words: &mut Ahead<'a>) -> Option<RatedWords<'a>>
    ensures { rated_part words.old ≡ found result words.new }
{
    let first = words.next()?;
    match find_second(words) {
        Some(second) => Some(RatedWords { first, second }),
        None => None,
    }
}

/// The second price that the words write behind a first one.
fn read_past(first: u32, words: &PastWords<'_>) -> Option<Second>
    ensures { StandsFor (λ s. is_units s.units && is_above first s.price) past_of words.now result }
{
    match read_units(words.units) {
        Some(after) => match read_above(first, words.price) {
            Some(rate) => Some(Second { after, rate }),
            None => None,
        },
        None => None,
    }
}

/// The second price, where there is one.
#[tactic(auto, using(crate::proofs::OneSpelling::firsts))]
fn read_second(first: u32, words: &Option<PastWords<'_>>) -> Option<Option<Second>>
    requires { is_first (count_word first) ≡ true }
    ensures { let is_second = if_there (is_past (count_word first)) in
        StandsFor is_second (option_map past_of) words.now result }
{
    match words {
        Some(words) => match read_past(first, words) {
            Some(second) => Some(Some(second)),
            None => None,
        },
        None => Some(None),
    }
}

/// The rate that the words write.
pub(crate) fn read_rate(words: &RatedWords<'_>) -> Option<Rate>
    ensures { StandsFor is_rated rated_of words.now result }
{
    match read_first(words.first) {
        Some(first) => match read_second(first, &words.second) {
            Some(second) => Some(Rate { first, second }),
            None => None,
        },
        None => None,
    }
}

/// The rate of a side, where its words are there.
pub(crate) fn read_side_rate(words: &Option<RatedWords<'_>>) -> Option<Option<Rate>>
    ensures { StandsFor (if_there is_rated) (option_map rated_of) words.now result }
{
    match words {
        Some(words) => match read_rate(words) {
            Some(rate) => Some(Some(rate)),
            None => None,
        },
        None => Some(None),
    }
}

/// Appends `past`, UNITS and PRICE of a second price, or nothing.
fn put_second(line: &mut Vec<u8>, second: Option<Second>) -> Result<(), AllocError>
    ensures { let words = past_words (option_map past_of second) in
        OnOk result (Appends line.old.items words line.new.items) }
{
    match second {
        Some(second) => {
            put_word(line, b"past")?;
            put_count(line, second.after)?;
            put_count(line, second.rate)
        }
        None => Ok(()),
    }
}

/// Appends RATE.
pub(crate) fn put_rate(line: &mut Vec<u8>, rate: Rate) -> Result<(), AllocError>
    ensures { OnOk result (Appends line.old.items (rated_words (rated_of rate)) line.new.items) }
{
    put_count(line, rate.first)?;
    put_second(line, rate.second)
}

/// Appends a rate that is set, or `-` for one that is taken away.
pub(crate) fn put_set_rate(line: &mut Vec<u8>, rate: Option<Rate>) -> Result<(), AllocError>
    ensures { let words = set_words rated_words (option_map rated_of rate) in
        OnOk result (Appends line.old.items words line.new.items) }
{
    match rate {
        Some(rate) => put_rate(line, rate),
        None => put_word(line, b"-"),
    }
}
