//! `require N FROM TO LO HI [lower RATE [MAX]] [upper RATE [MAX]] [when C A ..]`
ghost use Rattle.std.specs.Prelude.{◌≡◌, None, ℕ, List, IfSome, IfNone, option_map, OnOk};
ghost use Rattle.uhura_line.specs.Form as grammar;
ghost use Rattle.uhura_line.specs.Form.{words_of};
ghost use Rattle.uhura_line.specs.Reads.{bound_word, priced_of};
ghost use Rattle.uhura_line.specs.Reader.{terms_in, require_in};
ghost use Rattle.uhura_line.specs.Pairs.{HoldsPairs, ReadsTerms};
ghost use Rattle.uhura_line.specs.Parses.{ParsesForm, ParsesAs};
ghost use Rattle.uhura_line.specs.Written.{Writes};

use crate::part::ahead::Ahead;
use crate::part::count::next_five;
use crate::part::pairs::{Pairs, read_guard};
use crate::part::places::{put_between, put_bounds, read_bound, read_name};
use crate::part::priced::{PricedWords, read_side_price};
use crate::part::sides::{find_side_price, put_terms};
use crate::{Command, LineRefusal, Literals};
use std::alloc::{AllocError, Global};
use uhura_plan::{Bounded, Name, Side};
use uhura_text::Words;

/// The prices of both sides and the guard, which end the line.
fn find_terms<'a>(
    alloc: Global,
    mut words: Ahead<'a>,
) -> Option<(Option<PricedWords<'a>>, Option<PricedWords<'a>>, Pairs)>
    ensures none { IfNone result (terms_in words.entry ≡ None) }
    ensures some { IfSome result (λ t. ReadsTerms words.entry t.0 t.1 t.2) }
{
    let lower = find_side_price(Side::Lower, &mut words)?;
    let upper = find_side_price(Side::Upper, &mut words)?;
    match read_guard(alloc, words) {
        Some(guard) => Some((lower, upper, guard)),
        None => None,
    }
}

/// The requirement that the words at its places say, or why they say none.
fn make(
    names: (&[u8], &[u8], &[u8]),
    bounds: (&[u8], &[u8]),
    lower: &Option<PricedWords<'_>>,
    upper: &Option<PricedWords<'_>>,
    guard: Pairs,
) -> Result<Command, LineRefusal>
    ensures { (g : List (List ℕ × List ℕ)) → HoldsPairs guard g → let form = grammar.require
        names.entry.0.now names.entry.1.now names.entry.2.now
        bounds.entry.0.now bounds.entry.1.now lower.now upper.now g in
        ParsesForm form result }
{
    let Some(low) = read_bound(bounds.0) else {
        return Err(LineRefusal::Number);
    };
    let Some(high) = read_bound(bounds.1) else {
        return Err(LineRefusal::Number);
    };
    let Some(lower) = read_side_price(lower) else {
        return Err(LineRefusal::Number);
    };
    let Some(upper) = read_side_price(upper) else {
        return Err(LineRefusal::Number);
    };
    let Some(name) = read_name(names.0) else {
        return Err(LineRefusal::Name);
    };
    let Some(from) = read_name(names.1) else {
        return Err(LineRefusal::Name);
    };
    let Some(to) = read_name(names.2) else {
        return Err(LineRefusal::Name);
    };
    match guard {
        Pairs::NotNames => Err(LineRefusal::Name),
        Pairs::Memory(error) => Err(LineRefusal::Memory(error)),
        Pairs::Read(pairs) => Ok(Command::Require {
            name,
            from,
            to,
            lower: Bounded {
                bound: low,
                price: lower,
            },
            upper: Bounded {
                bound: high,
                price: upper,
            },
            guard: Literals::from_vec(pairs),
        }),
    }
}

/// Reads the words behind the verb.
pub(crate) fn read(alloc: Global, mut words: Words<'_>) -> Result<Command, LineRefusal>
    ensures { ParsesAs (require_in words.entry) result }
{
    let Some((name, from, to, low, high)) = next_five(&mut words) else {
        return Err(LineRefusal::Form);
    };
    match find_terms(alloc, Ahead::new(words)) {
        Some((lower, upper, guard)) => make((name, from, to), (low, high), &lower, &upper, guard),
        None => Err(LineRefusal::Form),
    }
}

/// Appends the words.
pub(crate) fn put(
    line: &mut Vec<u8>,
    names: (Name, Name, Name),
    lower: Bounded,
    upper: Bounded,
    guard: &Literals,
) -> Result<(), AllocError>
    ensures { let form = grammar.require names.0 names.1 names.2
        (bound_word lower.bound) (bound_word upper.bound)
        (option_map priced_of lower.price) (option_map priced_of upper.price) guard.now in
        OnOk result (Writes line.old.items (words_of form) line.new.items) }
{
    put_between(line, b"require", names)?;
    put_bounds(line, lower.bound, upper.bound)?;
    put_terms(line, lower.price, upper.price, guard)
}
