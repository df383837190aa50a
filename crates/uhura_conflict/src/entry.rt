//! A conflict with its value.
ghost use Rattle.std.specs.Prelude.{◌≡◌};
ghost use Rattle.uhura_conflict.specs.Entries.{is_sought};

use crate::Conflict;
use crate::sought::{Sought, is_sought};

/// A conflict, and, of a flow, what it is worth at the store's table.
#[derive(Drop)]
pub(crate) struct Entry {
    pub(crate) conflict: Conflict,
    pub(crate) value: i128,
}

impl Entry {
    /// Whether it is looked for, if it applies: it is quicker to tell than whether it does.
    pub(crate) fn is_sought(&self, sought: Sought) -> bool
        ensures { result ≡ is_sought sought self.now }
    {
        is_sought(sought, self.conflict.is_stuck(), self.value)
    }
}
