//! A line of text: its words, or the byte that may not stand in it.
ghost use Rattle.std.specs.Prelude.{◌≡◌, ◌^◌, ◌-◌, None, Some, min, not, find, IfOk, IfErr};
ghost use Rattle.std.specs.Option.{option_map};
ghost use Rattle.uhura_text.specs.Words.{first_bad, is_blank, is_graphic, is_quiet, words};

use crate::Words;

/// The place, from 0, of the first byte that may not stand in a line. A place past the last `u32` is
/// given as that last one.
#[derive(Clone, Copy, Debug, PartialEq, Eq)]
pub struct BadByte {
    pub at: u32,
}

/// The words of a line, or its first byte that is neither space, tab nor from 0x21 to 0x7E.
pub fn words(line: &[u8]) -> Result<Words<'_>, BadByte>
    ensures words { IfOk result (λ w. w ≡ words line.now) }
    ensures good { IfOk result (λ _. first_bad line.now ≡ None) }
    ensures bad { IfErr result
        (λ e. option_map (min (2 ^ 32 - 1)) (first_bad line.now) ≡ Some e.at) }
{
    match first_bad(line) {
        Some(place) => Err(BadByte {
            at: cap_place(place),
        }),
        None => Ok(Words::new(line)),
    }
}

/// Whether a line asks for nothing: it is blank or a comment, whatever bytes stand in the comment.
#[tactic(auto, unfolding(crate::specs::Words::is_quiet))]
pub fn is_quiet(line: &[u8]) -> bool
    ensures { result ≡ is_quiet line.now }
{
    match first_nonblank(line) {
        Some(byte) => byte == b'#',
        None => true,
    }
}

/// The first byte that is no blank.
fn first_nonblank(line: &[u8]) -> Option<u8>
    ensures { result ≡ find (λ b. not (is_blank b)) line.now }
{
    line.iter().copied().find(|byte| !is_blank(*byte))
}

/// The place of the first byte that may not stand in a line.
#[tactic(auto, unfolding(crate::specs::Words::first_bad))]
fn first_bad(line: &[u8]) -> Option<usize>
    ensures { result ≡ first_bad line.now }
{
    line.iter()
        .position(|byte| !(is_blank(*byte) || is_graphic(*byte)))
}

/// The place as a `u32`, or the last one past it.
fn cap_place(place: usize) -> u32
    ensures { result ≡ min (2 ^ 32 - 1) place }
{
    u32::try_from(place).unwrap_or(u32::MAX)
}

/// A space or a tab.
pub(crate) fn is_blank(byte: u8) -> bool
    ensures { result ≡ is_blank byte }
{
    byte == b' ' || byte == b'\t'
}

/// A byte that words are made of.
fn is_graphic(byte: u8) -> bool
    ensures { result ≡ is_graphic byte }
{
    byte >= 0x21 && byte <= 0x7E
}
