//! A condition that fails.
use crate::Code;

/// The code of a condition that fails, and its line, counted from 1, and told as the greatest number of a `u32` where
/// it is greater.
#[derive(Clone, Copy, Debug, PartialEq, Eq)]
pub(crate) struct Failure {
    pub code: Code,
    pub line: u32,
}
