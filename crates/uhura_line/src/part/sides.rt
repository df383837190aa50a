//! What stands behind the sides of a duration or of a requirement.
ghost use Rattle.std.specs.Prelude.{◌≡◌, ◌++◌, option_map, OnOk};
ghost use Rattle.uhura_plan.specs.declared.key.Side.TheVariants.{Lower, Upper};
ghost use Rattle.uhura_line.specs.Form.{rate_words, price_words, guard_words};
ghost use Rattle.uhura_line.specs.Reads.{rated_of, priced_of};
ghost use Rattle.uhura_line.specs.Reader.{found, rate_part, price_part, rates_in};
ghost use Rattle.uhura_line.specs.Written.{Appends};

use super::ahead::Ahead;
use super::pairs::put_guard;
use super::places::{put_side, side_name};
use super::priced::{PricedWords, find_price, put_price as put_words};
use super::rates::{RatedWords, find_rate, put_rate as put_rated};
use crate::Literals;
use std::alloc::AllocError;
use uhura_plan::{Price, Rate, Side};

/// The RATE of a side, where the words begin with it.
fn find_side_rate<'a>(side: Side, words: &mut Ahead<'a>) -> Option<Option<RatedWords<'a>>>
    ensures { rate_part side words.old ≡ found result words.new }
{
    if !words.begins_with(side_name(side)) {
        return Some(None);
    }
    let _side = words.next()?;
    match find_rate(words) {
        Some(rate) => Some(Some(rate)),
        None => None,
    }
}

/// The RATE and MAX of a side, where the words begin with it.
pub(crate) fn find_side_price<'a>(
    side: Side,
    words: &mut Ahead<'a>,
) -> Option<Option<PricedWords<'a>>>
    ensures { price_part side words.old ≡ found result words.new }
{
    if !words.begins_with(side_name(side)) {
        return Some(None);
    }
    let _side = words.next()?;
    match find_price(side, words) {
        Some(price) => Some(Some(price)),
        None => None,
    }
}

/// The RATEs of both sides, which end the line.
pub(crate) fn find_rates<'a>(
    mut words: Ahead<'a>,
) -> Option<(Option<RatedWords<'a>>, Option<RatedWords<'a>>)>
    ensures { rates_in words.entry ≡ result }
{
    let lower = find_side_rate(Side::Lower, &mut words)?;
    let upper = find_side_rate(Side::Upper, &mut words)?;
    if words.is_end() {
        Some((lower, upper))
    } else {
        None
    }
}

/// Appends a side with its RATE, or nothing.
fn put_rate(line: &mut Vec<u8>, side: Side, rate: Option<Rate>) -> Result<(), AllocError>
    ensures { let words = rate_words side (option_map rated_of rate) in
        OnOk result (Appends line.old.items words line.new.items) }
{
    match rate {
        Some(rate) => {
            put_side(line, side)?;
            put_rated(line, rate)
        }
        None => Ok(()),
    }
}

/// Appends a side with its RATE and MAX, or nothing.
fn put_price(line: &mut Vec<u8>, side: Side, price: Option<Price>) -> Result<(), AllocError>
    ensures { let words = price_words side (option_map priced_of price) in
        OnOk result (Appends line.old.items words line.new.items) }
{
    match price {
        Some(price) => {
            put_side(line, side)?;
            put_words(line, price)
        }
        None => Ok(()),
    }
}

/// Appends the sides of a duration that have a rate.
#[tactic(auto, using(crate::proofs::Spacing::spacing))]
pub(crate) fn put_rates(
    line: &mut Vec<u8>,
    rates: (Option<Rate>, Option<Rate>),
) -> Result<(), AllocError>
    ensures { let words = rate_words Lower (option_map rated_of rates.0)
        ++ rate_words Upper (option_map rated_of rates.1) in
        OnOk result (Appends line.old.items words line.new.items) }
{
    put_rate(line, Side::Lower, rates.0)?;
    put_rate(line, Side::Upper, rates.1)
}

/// Appends the sides of a requirement that have a price.
#[tactic(auto, using(crate::proofs::Spacing::spacing))]
fn put_prices(
    line: &mut Vec<u8>,
    lower: Option<Price>,
    upper: Option<Price>,
) -> Result<(), AllocError>
    ensures { let words = price_words Lower (option_map priced_of lower)
        ++ price_words Upper (option_map priced_of upper) in
        OnOk result (Appends line.old.items words line.new.items) }
{
    put_price(line, Side::Lower, lower)?;
    put_price(line, Side::Upper, upper)
}

/// Appends what stands behind the bounds of a requirement: its prices and its guard.
#[tactic(auto, using(crate::proofs::Spacing::spacing))]
pub(crate) fn put_terms(
    line: &mut Vec<u8>,
    lower: Option<Price>,
    upper: Option<Price>,
    guard: &Literals,
) -> Result<(), AllocError>
    ensures { let words = price_words Lower (option_map priced_of lower)
        ++ price_words Upper (option_map priced_of upper) ++ guard_words guard.now in
        OnOk result (Appends line.old.items words line.new.items) }
{
    put_prices(line, lower, upper)?;
    put_guard(line, guard)
}
