//! Numbers of at most 30 digits, read and written.
ghost use Rattle.std.specs.Prelude.{◌≡◌, ◌++◌, ◌^◌, ◌<◌, true, None, Some, MatchResult, IfOk, IfSome, OnOk, OnErr, unsigned_abs};
ghost use Rattle.std.specs.List.{list_all};
ghost use Rattle.std.specs.Char.{is_ascii_digit};
ghost use Rattle.std.specs.Str.Parse.{digits_value};
ghost use Rattle.uhura_text.specs.Number.{is_magnitude, number_of, spelling};

use itoa::Buffer;
use std::alloc::AllocError;

/// The most digits that a number has.
pub const DIGITS: usize = 30;

/// A word that is no number.
#[derive(Clone, Copy, Debug, PartialEq, Eq)]
pub struct NotNumber;

/// Reads a number: `0`, or an optional `-`, a digit from 1 to 9 and at most 29 further digits.
#[tactic(auto, using(crate::proofs::SpellingLemmas::spellings))]
pub fn number(word: &[u8]) -> Result<i128, NotNumber>
    ensures value { MatchResult result (λ z. number_of word.now ≡ Some z)
        (λ _. number_of word.now ≡ None) }
    ensures one_spelling { IfOk result (λ z. word.now ≡ spelling z) }
    ensures small { IfOk result (λ z. unsigned_abs z < 10 ^ DIGITS) }
{
    match read(word) {
        Some(value) => Ok(value),
        None => Err(NotNumber),
    }
}

/// The number that a word writes, if it writes one.
#[tactic(auto, unfolding(crate::specs::Number::number_of))]
fn read(word: &[u8]) -> Option<i128>
    ensures value { result ≡ number_of word.now }
    ensures small { IfSome result (λ z. unsigned_abs z < 10 ^ DIGITS) }
{
    if word == b"0".as_slice() {
        return Some(0);
    }
    if is_magnitude(word) {
        return Some(value_of(word) as i128);
    }
    match word {
        [b'-', digits @ ..] if is_magnitude(digits) => Some(-(value_of(digits) as i128)),
        _ => None,
    }
}

/// Appends the one spelling of a number, which `number` reads back.
#[tactic(auto, using(crate::proofs::SpellingLemmas::spellings))]
pub fn put_number(out: &mut Vec<u8>, value: i128) -> Result<(), AllocError>
    requires { unsigned_abs value < 10 ^ DIGITS }
    ensures ok { OnOk result (out.new.items ≡ out.old.items ++ spelling value) }
    ensures read_back { number_of (spelling value) ≡ Some value }
    ensures err { OnErr result (out.new.items ≡ out.old.items) }
{
    let mut buffer = Buffer::new();
    out.extend_from_slice(buffer.format(value).as_bytes())
}

/// Whether these are digits that write a number above 0.
#[tactic(auto, unfolding(crate::specs::Number::is_magnitude))]
fn is_magnitude(digits: &[u8]) -> bool
    ensures { result ≡ is_magnitude digits.now }
{
    digits.len() <= DIGITS && matches!(digits, [first, ..] if *first > b'0') && are_digits(digits)
}

/// Whether each byte is a digit.
fn are_digits(bytes: &[u8]) -> bool
    ensures { result ≡ list_all is_ascii_digit bytes.now }
{
    bytes.iter().all(|byte| byte.is_ascii_digit())
}

/// The number that the digits write.
fn value_of(digits: &[u8]) -> u128
    requires { is_magnitude digits.now ≡ true }
    ensures value { result ≡ digits_value 10 digits.now }
    ensures small { result < 10 ^ DIGITS }
{
    let mut value: u128 = 0;
    for digit in digits {
        value = value * 10 + u128::from(*digit - b'0');
    }
    value
}
