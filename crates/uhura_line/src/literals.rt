//! The literals of a guard or of a denial, by name.
use std::marker::Model;
use uhura_plan::Name;

/// Pairs of a choice and one of its alternatives, in the order in which they stand in a line.
#[derive(Drop)]
pub struct Literals {
    pairs: Vec<(Name, Name)>,
}

impl Model for Literals {
    ghost use Rattle.std.specs.Prelude.{List, ℕ};

    ghost Value = { List (List ℕ × List ℕ) };

    ghost view = { λ l. l.pairs.items };
}

impl Literals {
    ghost use Rattle.std.specs.Prelude.{◌≡◌};

    /// The pairs of a list. It takes no memory.
    pub fn from_vec(pairs: Vec<(Name, Name)>) -> Literals
        ensures { result ≡ pairs.items }
    {
        Literals { pairs }
    }

    /// The pairs as a slice.
    pub fn as_slice(&self) -> &[(Name, Name)]
        ensures { result.now ≡ self.now }
    {
        self.pairs.as_slice()
    }
}
