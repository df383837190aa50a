//! How many things a plan holds, and how great its numbers are.

/// The most controllable events and ends of durations together.
pub const EVENTS: u32 = 512;

/// The most durations.
pub const UNCERTAINS: u32 = 256;

/// The most choices.
pub const CHOICES: u32 = 16;

/// The most alternatives of one choice.
pub const ALTERNATIVES: u32 = 16;

/// The most ways to pick an alternative of each choice: the product of the numbers of alternatives.
pub const BRANCHES: u32 = 65536;

/// The most requirements at once, and the number of slots.
pub const REQUIREMENTS: u32 = 2048;

/// The most literals of a guard, at most one for each choice.
pub const LITERALS: usize = 16;

/// The most bytes of a name.
pub const NAME_BYTES: usize = 32;

/// The greatest bound of a requirement. The least is its opposite.
pub const BOUND: i64 = 1_000_000_000;

/// The most units, and the greatest cost of an alternative.
pub const AMOUNT: u32 = 1_000_000_000;

/// The greatest price of one unit.
pub const UNIT_PRICE: u32 = 1_000_000;
