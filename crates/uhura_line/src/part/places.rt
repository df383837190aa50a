//! Single words and what they stand for: names, numbers, bounds and sides.
ghost use Rattle.std.specs.Prelude.{◌≡◌, ℕ, ◌≤◌, ◌≤ℤ◌, [], ◌∷◌, pos, negsuc, true, false, IfSome, IfNone, OnOk};
ghost use Rattle.uhura_text.specs.Number.{spelling};
ghost use Rattle.uhura_plan.specs.Name.{is_name};
ghost use Rattle.uhura_line.specs.Form.{side_word};
ghost use Rattle.uhura_line.specs.Reads.{is_number, is_bound, is_first, is_units, is_above, is_amount, bound_word, count_word, StandsFor};
ghost use Rattle.uhura_line.specs.Reader.{side_in};
ghost use Rattle.uhura_line.specs.Written.{Appends, Writes};

use std::alloc::AllocError;
use uhura_plan::{Name, Side};
use uhura_text::{number, put_number};

/// The name that a word spells.
pub(crate) fn read_name(word: &[u8]) -> Option<Name>
    ensures { StandsFor is_name (λ n. n) word.now result }
{
    match Name::read(word) {
        Ok(name) => Some(name),
        Err(_) => None,
    }
}

/// The number that a word writes, where it is from the least to the greatest.
fn read_within(word: &[u8], least: i64, greatest: i64) -> Option<i64>
    ensures word { StandsFor (is_number least greatest) spelling word.now result }
    ensures low { IfSome result (λ z. least ≤ℤ z) }
    ensures high { IfSome result (λ z. z ≤ℤ greatest) }
{
    match number(word) {
        Ok(value) => {
            if i128::from(least) <= value && value <= i128::from(greatest) {
                Some(value as i64)
            } else {
                None
            }
        }
        Err(_) => None,
    }
}

/// The first price that a word writes.
pub(crate) fn read_first(word: &[u8]) -> Option<u32>
    ensures { StandsFor is_first count_word word.now result }
{
    match read_within(word, 1, 1_000_000) {
        Some(value) => Some(value as u32),
        None => None,
    }
}

/// The units that a word writes, which a first price covers.
pub(crate) fn read_units(word: &[u8]) -> Option<u32>
    ensures { StandsFor is_units count_word word.now result }
{
    match read_within(word, 1, 1_000_000_000) {
        Some(value) => Some(value as u32),
        None => None,
    }
}

/// The second price that a word writes, above the first.
pub(crate) fn read_above(first: u32, word: &[u8]) -> Option<u32>
    ensures { StandsFor (is_above first) count_word word.now result }
{
    match read_within(word, i64::from(first) + 1, 1_000_000) {
        Some(value) => Some(value as u32),
        None => None,
    }
}

/// The cost or the units that a word writes.
pub(crate) fn read_amount(word: &[u8]) -> Option<u32>
    ensures { StandsFor is_amount count_word word.now result }
{
    match read_within(word, 0, 1_000_000_000) {
        Some(value) => Some(value as u32),
        None => None,
    }
}

/// The end of a range that a word writes.
pub(crate) fn read_end(word: &[u8]) -> Option<i64>
    ensures { StandsFor is_amount spelling word.now result }
{
    read_within(word, 0, 1_000_000_000)
}

/// The bound that a word stands for: `-` is none.
pub(crate) fn read_bound(word: &[u8]) -> Option<Option<i64>>
    ensures { StandsFor is_bound bound_word word.now result }
{
    if word == b"-".as_slice() {
        return Some(None);
    }
    match read_within(word, -1_000_000_000, 1_000_000_000) {
        Some(bound) => Some(Some(bound)),
        None => None,
    }
}

/// The side that a word names.
pub fn read_side(word: &[u8]) -> Option<Side>
    ensures { result ≡ side_in word.now }
{
    if word == b"lower".as_slice() {
        return Some(Side::Lower);
    }
    if word == b"upper".as_slice() {
        return Some(Side::Upper);
    }
    None
}

/// The word of a side.
pub(crate) fn side_name(side: Side) -> &'static [u8]
    ensures { result.now ≡ side_word side }
{
    match side {
        Side::Lower => b"lower",
        Side::Upper => b"upper",
    }
}

/// Appends a word.
pub fn put_word(line: &mut Vec<u8>, word: &[u8]) -> Result<(), AllocError>
    ensures { OnOk result (Appends line.old.items (word.now ∷ []) line.new.items) }
{
    line.extend_from_slice(b" ")?;
    line.extend_from_slice(word)
}

/// Appends a number.
fn put_integer(line: &mut Vec<u8>, value: i64) -> Result<(), AllocError>
    ensures { OnOk result (Appends line.old.items (spelling value ∷ []) line.new.items) }
{
    line.extend_from_slice(b" ")?;
    put_number(line, i128::from(value))
}

/// Appends a cost, units or a price.
pub(crate) fn put_count(line: &mut Vec<u8>, value: u32) -> Result<(), AllocError>
    ensures { OnOk result (Appends line.old.items (count_word value ∷ []) line.new.items) }
{
    put_integer(line, i64::from(value))
}

/// Appends a bound, `-` for none.
pub(crate) fn put_bound(line: &mut Vec<u8>, bound: Option<i64>) -> Result<(), AllocError>
    ensures { OnOk result (Appends line.old.items (bound_word bound ∷ []) line.new.items) }
{
    match bound {
        Some(value) => put_integer(line, value),
        None => put_word(line, b"-"),
    }
}

/// Appends a side.
pub fn put_side(line: &mut Vec<u8>, side: Side) -> Result<(), AllocError>
    ensures { OnOk result (Appends line.old.items (side_word side ∷ []) line.new.items) }
{
    put_word(line, side_name(side))
}

/// Appends two names.
pub(crate) fn put_pair(line: &mut Vec<u8>, pair: &(Name, Name)) -> Result<(), AllocError>
    ensures { OnOk result (Appends line.old.items (pair.now.0 ∷ pair.now.1 ∷ []) line.new.items) }
{
    put_word(line, pair.0.bytes())?;
    put_word(line, pair.1.bytes())
}

/// Appends the ends of a range.
pub(crate) fn put_range(line: &mut Vec<u8>, range: (i64, i64)) -> Result<(), AllocError>
    ensures { let words = spelling range.0 ∷ spelling range.1 ∷ [] in
        OnOk result (Appends line.old.items words line.new.items) }
{
    put_integer(line, range.0)?;
    put_integer(line, range.1)
}

/// Appends two bounds.
pub(crate) fn put_bounds(
    line: &mut Vec<u8>,
    lower: Option<i64>,
    upper: Option<i64>,
) -> Result<(), AllocError>
    ensures { let words = bound_word lower ∷ bound_word upper ∷ [] in
        OnOk result (Appends line.old.items words line.new.items) }
{
    put_bound(line, lower)?;
    put_bound(line, upper)
}

/// Appends a verb and three names.
pub(crate) fn put_between(
    line: &mut Vec<u8>,
    verb: &[u8],
    names: (Name, Name, Name),
) -> Result<(), AllocError>
    ensures { let words = verb.now ∷ names.0 ∷ names.1 ∷ names.2 ∷ [] in
        OnOk result (Writes line.old.items words line.new.items) }
{
    line.extend_from_slice(verb)?;
    put_word(line, names.0.bytes())?;
    put_word(line, names.1.bytes())?;
    put_word(line, names.2.bytes())
}
