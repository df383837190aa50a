//! The answer to a line.

/// The text of an answer, each line with its newline: empty for a line that asks for nothing. `refused` is true
/// exactly where the text is an `error` line, as the law `refusals_are_errors` says.
#[derive(Clone, Copy, Debug)]
pub struct Answer<'a> {
    pub text: &'a [u8],
    pub refused: bool,
}
