//! The first picks of a branch.
ghost use Rattle.std.specs.Prelude.{◌≡◌, ◌<◌, ◌≤◌, [], ◌∷◌, ◌++◌, length, take};

use std::marker::Model;
use uhura_plan::CHOICES;

/// What a branch has for a choice: an alternative, by its place, or nothing where the choice's guard doesn't hold.
#[derive(Clone, Copy, Debug, PartialEq, Eq)]
pub enum Pick {
    Alternative(u32),
    Inactive,
}

/// The first picks of a branch, at most one for each choice.
#[derive(Drop)]
pub struct Prefix {
    picks: [Pick; CHOICES as usize],
    len: u8,
}

/// A prefix with a pick for each choice.
pub type Branch = Prefix;

impl Model for Prefix {
    ghost use Rattle.std.specs.Prelude.{List, take, ◌≤◌};
    ghost use Rattle.uhura_plan.specs.declared.limits.TheConstants.{CHOICES};
    ghost use Rattle.uhura_choice.specs.declared.prefix.Pick.{Pick};

    ghost Value = { List Pick };

    ghost view = { λ p. take p.len p.picks };

    ghost invariant = { λ p. p.len ≤ CHOICES };
}

impl Prefix {
    /// The prefix of every branch: no pick.
    pub fn empty() -> Prefix
        ensures { result ≡ [] }
    {
        Prefix {
            picks: [Pick::Inactive; CHOICES as usize],
            len: 0,
        }
    }

    /// The picks in the order of the choices.
    pub fn entries(&self) -> &[Pick]
        ensures entries { result.now ≡ self.now }
        ensures few { length self.now ≤ CHOICES }
    {
        &self.picks[..self.len as usize]
    }

    /// The first so many picks.
    pub(crate) fn front(&self, len: usize) -> Prefix
        requires { len ≤ length self.now }
        ensures { result ≡ take len self.now }
    {
        Prefix {
            picks: self.picks,
            len: len as u8,
        }
    }

    /// Appends a pick.
    pub(crate) fn push(&mut self, pick: Pick)
        requires { length self.old < CHOICES }
        ensures { self.new ≡ self.old ++ pick ∷ [] }
    {
        self.picks[self.len as usize] = pick;
        self.len += 1;
    }
}
