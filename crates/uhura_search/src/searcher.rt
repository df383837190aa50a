//! The searcher: what is kept from question to question.
ghost use Rattle.std.specs.Prelude.{◌≡◌, Some, IsTrue, IsFalse, IfOk};
ghost use Rattle.uhura_veto.specs.State.{State};
ghost use Rattle.uhura_search.specs.Answer.{IsAnswerTo};
ghost use Rattle.uhura_search.specs.Asked.{IsLeftSolved};
ghost use Rattle.uhura_search.specs.Bounds.{IsDual, AllBound};
ghost use Rattle.uhura_search.specs.Held.{HasBegun};
ghost use Rattle.uhura_search.specs.Revised.{IsRevised};
ghost use Rattle.uhura_search.specs.Searcher.{empty_searcher, said, IsSearcher, IsFilledFor, IsAsked, StandsFor, Asks, IsAskedOnce};

use crate::Outcome;
use crate::ask::ask;
use crate::keeping::share;
use crate::learning::Learning;
use crate::taking::{take_first, take_over};
use std::alloc::{AllocError, Global};
use std::marker::Model;
use uhura_plan::{Guard, Plan, REQUIREMENTS};
use uhura_veto::Vetoes;

/// So many pairs of place and units are kept when a question is answered.
const MOST_PAIRS: usize = 8388608;

/// One flow, one table of edges and the conflicts learned so far, kept while the plan and the vetoes change; and the
/// last answer, which is given again where nothing was revised since. The counts stand still at the end of their
/// type.
#[derive(Drop)]
pub struct Searcher {
    alloc: Global,
    learning: Learning,
    guards: Vec<Guard>,
    answer: Option<Outcome>,
    stands: bool,
    filled: bool,
}

impl Model for Searcher {
    ghost use Rattle.uhura_search.specs.Searcher.{Searched};

    ghost Value = { Searched };

    ghost use Rattle.uhura_search.specs.Bounds.{IsDual, AllBound};
    ghost use Rattle.uhura_search.specs.Held.{shown_as, IsHeldSearcher};

    ghost view = { λ s. shown_as s.learning s.guards.items s.answer s.stands s.filled };

    ghost invariant = { λ s.
        IsHeldSearcher s.learning s.guards.items s.answer s.stands s.filled };
}

impl Searcher {
    /// A searcher that was asked nothing yet.
    pub fn new(alloc: Global) -> Result<Searcher, AllocError>
        ensures made { IfOk result (λ searcher. searcher ≡ empty_searcher) }
        ensures stands_for { (state : State) → IfOk result (λ searcher. StandsFor searcher state) }
    {
        Ok(Searcher {
            alloc,
            learning: Learning::new(alloc)?,
            guards: vec![in alloc; Guard::empty(); REQUIREMENTS as usize]?,
            answer: None,
            stands: false,
            filled: false,
        })
    }

    /// Takes over a plan with vetoes. It gives up the conflicts of which an edge is gone, has another guard or can't
    /// carry the units any more, and the firm cycles whose bounds no longer sum below 0. It takes no memory, and
    /// before the first question no time.
    pub fn revise(&mut self, plan: &Plan, vetoes: &Vetoes)
        ensures stands_for { StandsFor self.new (record { plan = plan.now; vetoes = vetoes.now }) }
        ensures revised { IsRevised self.old self.new }
        ensures sound { IsSearcher self.new }
    {
        if !self.filled {
            return;
        }
        self.stands = false;
        take_over(&mut self.learning, &mut self.guards, plan, vetoes);
    }

    /// Answers a question: the first of the cheapest branches, or none, with leaves that show it. Where the last
    /// answer stands, it is given again. Otherwise what is learned is kept, and trimmed when all is answered. After
    /// want of memory the searcher may be asked again.
    pub fn best(&mut self, plan: &Plan, vetoes: &Vetoes) -> Result<Outcome, AllocError>
        requires { StandsFor self.old (record { plan = plan.now; vetoes = vetoes.now }) }
        ensures answer { let state : State = record { plan = plan.now; vetoes = vetoes.now } in
            IfOk result (IsAnswerTo state) }
        ensures solved { let state : State = record { plan = plan.now; vetoes = vetoes.now } in
            IfOk result (IsLeftSolved self.new.net state) }
        ensures stands_for { StandsFor self.new (record { plan = plan.now; vetoes = vetoes.now }) }
        ensures asked { IsAskedOnce self.old self.new plan.now result }
        ensures duality { IsDual (record { plan = plan.now; vetoes = vetoes.now }) }
        ensures bounds { AllBound (record { plan = plan.now; vetoes = vetoes.now }) self.new.store }
    {
        // By its type the plan is sound.
        let _ = plan.choices();
        if self.stands {
            return self.again(plan, vetoes);
        }
        if !self.filled {
            self.begin(plan, vetoes);
        }
        self.ask_anew(plan, vetoes)
    }

    /// How often the flow was read or found stuck.
    pub fn settles(&self) -> u64
        ensures { result ≡ self.now.settles }
    {
        self.learning.flow.settles()
    }

    /// How often units were pushed.
    pub fn pushes(&self) -> u64
        ensures { result ≡ self.now.net.pushes }
    {
        self.learning.flow.pushes()
    }

    /// How many conflicts were added.
    pub fn added(&self) -> u64
        ensures { result ≡ self.now.added }
    {
        self.learning.added
    }

    /// The last answer once more.
    fn again(&self, plan: &Plan, vetoes: &Vetoes) -> Result<Outcome, AllocError>
        requires stands { IsTrue self.now.stands }
        requires stands_for { StandsFor self.now (record { plan = plan.now; vetoes = vetoes.now }) }
        ensures { IfOk result (λ given. self.now.answer ≡ Some (said given)) }
    {
        let answer = self.answer.as_ref().unwrap();
        share(self.alloc, plan, vetoes, answer)
    }

    /// Fills the table and the guards for the first question.
    fn begin(&mut self, plan: &Plan, vetoes: &Vetoes)
        requires { IsFalse self.old.filled }
        ensures filled { IsFilledFor self.new (record { plan = plan.now; vetoes = vetoes.now }) }
        ensures begun { HasBegun self.old self.new }
    {
        take_first(&mut self.learning, &mut self.guards, plan, vetoes);
        self.filled = true;
    }

    /// Answers a question whose answer isn't kept.
    fn ask_anew(&mut self, plan: &Plan, vetoes: &Vetoes) -> Result<Outcome, AllocError>
        requires filled { IsTrue self.old.filled }
        requires stands { IsFalse self.old.stands }
        requires known { IsFilledFor self.old (record { plan = plan.now; vetoes = vetoes.now }) }
        ensures answer { let state : State = record { plan = plan.now; vetoes = vetoes.now } in
            IfOk result (IsAsked self.new.net state) }
        ensures stands_for { StandsFor self.new (record { plan = plan.now; vetoes = vetoes.now }) }
        ensures asked { Asks self.old self.new plan.now result }
    {
        let outcome = ask(&mut self.learning, self.alloc, plan, vetoes)?;
        self.answer = Some(share(self.alloc, plan, vetoes, &outcome)?);
        self.learning.store.trim(MOST_PAIRS);
        self.stands = true;
        Ok(outcome)
    }
}
