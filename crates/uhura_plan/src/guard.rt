//! The literals under which a requirement or a choice is active.
ghost use Rattle.std.specs.Prelude.{◌≡◌, ◌≢◌, ◌<◌, ◌≤◌, [], ◌∷◌, ◌++◌, length, All};
ghost use Rattle.uhura_plan.specs.declared.limits.TheConstants.{LITERALS};

use crate::LITERALS;
use std::marker::Model;

/// The alternative, by its place, that a choice, by its place, is to pick.
#[derive(Clone, Copy, Debug, PartialEq, Eq)]
pub struct Literal {
    pub choice: u32,
    pub alternative: u32,
}

/// Literals that are all to be picked, at most one for each choice.
#[derive(Clone, Copy, Debug)]
pub struct Guard {
    literals: [Literal; LITERALS],
    len: u8,
}

impl Model for Guard {
    ghost use Rattle.std.specs.Prelude.{◌++◌, ◌-◌, List, take, length, replicate};
    ghost use Rattle.uhura_plan.specs.declared.limits.TheConstants.{LITERALS};
    ghost use Rattle.uhura_plan.specs.declared.guard.Literal.{Literal};
    ghost use Rattle.uhura_plan.specs.Guard.{HoldsLiterals, no_literal};
    ghost use Rattle.uhura_plan.specs.Padded.{padded-guard, length-guard};

    ghost Value = { List Literal };

    ghost view = { λ g. take g.len g.literals };

    ghost invariant = { λ g. HoldsLiterals g.literals g.len };

    ghost inverse = { λ guard. record {
      literals = guard ++ replicate (LITERALS - length guard) no_literal;
      len = length guard;
    } };

    ghost inverse_ok = { λ g held i. record {
      literals = padded-guard g.literals g.len held i;
      len = length-guard g.literals g.len held i;
    } };
}

impl Guard {
    /// The guard without literals, which always holds.
    pub fn empty() -> Guard
        ensures { result ≡ [] }
    {
        let nothing = Literal {
            choice: 0,
            alternative: 0,
        };
        Guard {
            literals: [nothing; LITERALS],
            len: 0,
        }
    }

    /// The literals, in the order in which they were added.
    pub fn literals(&self) -> &[Literal]
        ensures literals { result.now ≡ self.now }
        ensures few { length self.now ≤ LITERALS }
    {
        &self.literals[..self.len as usize]
    }

    /// Appends a literal on a choice that the guard does not name yet.
    pub fn add(&mut self, literal: Literal)
        requires room { length self.old < LITERALS }
        requires new { All (λ l. l.choice ≢ literal.choice) self.old }
        ensures { self.new ≡ self.old ++ literal ∷ [] }
    {
        self.literals[self.len as usize] = literal;
        self.len += 1;
    }
}
