//! What is looked for among the entries.
ghost use Rattle.std.specs.Prelude.{◌≡◌};
ghost use Rattle.uhura_conflict.specs.Entries.{beyond, is_sought_by, reaching};

use crate::Bound;

/// Of the entries that apply: none, or the firm cycles, or with them the flows that are worth more than a value, or at
/// least as much.
#[derive(Clone, Copy)]
pub(crate) enum Sought {
    NoEntry,
    Cycle,
    Above(i128),
    AtLeast(i128),
}

/// What would change what is known.
pub(crate) fn beyond(best: Bound) -> Sought
    ensures { result ≡ beyond best }
{
    match best {
        Bound::Stuck { .. } => Sought::NoEntry,
        Bound::Flow { value, .. } => Sought::Above(value),
        Bound::Nothing => Sought::Above(0),
    }
}

/// Firm cycles, and where a value is given, also flows that are worth at least so much.
pub(crate) fn reaching(least: Option<i128>) -> Sought
    ensures { result ≡ reaching least }
{
    match least {
        Some(least) => Sought::AtLeast(least),
        None => Sought::Cycle,
    }
}

/// Whether a firm cycle, or else a flow of this value, is looked for.
pub(crate) fn is_sought(sought: Sought, stuck: bool, value: i128) -> bool
    ensures { result ≡ is_sought_by sought stuck value }
{
    match sought {
        Sought::NoEntry => false,
        Sought::Cycle => stuck,
        Sought::Above(most) => stuck || most < value,
        Sought::AtLeast(least) => stuck || least <= value,
    }
}
