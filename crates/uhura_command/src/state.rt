//! The state of a dialogue.
ghost use Rattle.std.specs.Prelude.{◌≡◌, IfOk};
ghost use Rattle.uhura_command.specs.State.{empty_state};

mod apply;
mod refusal;
mod script;

pub use refusal::StateRefusal;
use std::alloc::{AllocError, Global};
use std::marker::Model;
use uhura_plan::Plan;
use uhura_veto::Vetoes;

/// What the lines so far have made: a plan, and vetoes of what it has.
#[derive(Drop)]
pub struct State {
    pub plan: Plan,
    pub vetoes: Vetoes,
}

impl Model for State {
    ghost use Rattle.uhura_veto.specs.State as asked;
    ghost use Rattle.uhura_veto.specs.Vetoes.{AreVetoesOf};

    ghost Value = { asked.State };

    ghost view = { λ s. record { plan = s.plan; vetoes = s.vetoes } };

    ghost invariant = { λ s. AreVetoesOf s.plan s.vetoes };
}

impl State {
    /// Nothing is planned, and nothing is vetoed.
    pub fn new(alloc: Global) -> Result<State, AllocError>
        ensures { IfOk result (λ state. state ≡ empty_state) }
    {
        Ok(State {
            plan: Plan::new(alloc)?,
            vetoes: Vetoes::new(alloc)?,
        })
    }

    /// The same state, slots included.
    pub fn copy(&self) -> Result<State, AllocError>
        ensures { IfOk result (λ state. state ≡ self.now) }
    {
        Ok(State {
            plan: self.plan.copy()?,
            vetoes: self.vetoes.copy()?,
        })
    }
}
