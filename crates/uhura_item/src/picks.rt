//! The words of a leaf.
use std::marker::Model;
use uhura_plan::Name;

/// For each of the first choices the name of an alternative, or `None` for a choice that isn't active.
#[derive(Drop)]
pub struct Picks {
    names: Vec<Option<Name>>,
}

impl Model for Picks {
    ghost use Rattle.std.specs.Prelude.{List, Option, ℕ};

    ghost Value = { List (Option (List ℕ)) };

    ghost view = { λ p. p.names.items };
}

impl Picks {
    ghost use Rattle.std.specs.Prelude.{◌≡◌};

    /// The picks of a list. It takes no memory.
    pub fn from_vec(names: Vec<Option<Name>>) -> Picks
        ensures { result ≡ names.items }
    {
        Picks { names }
    }

    /// The picks as a slice.
    pub fn as_slice(&self) -> &[Option<Name>]
        ensures { result.now ≡ self.now }
    {
        self.names.as_slice()
    }
}
