//! The edits that append an item.
ghost use Rattle.std.specs.Prelude.{◌≡◌, ◌≤◌, length, All, IfSome, OnOk, OnErr};
ghost use Rattle.uhura_plan.specs.Limits.{IsRangeEnd, IsRate, IsAmount, AreWithinLimits};
ghost use Rattle.uhura_plan.specs.Edits.{with_event, AddsUncertain, AddsChoice, AddsRequirement};
ghost use Rattle.uhura_plan.specs.Refusals.{Answers, event_refusal, uncertain_refusal, choice_refusal, requirement_refusal};

use super::Plan;
use crate::{Alternatives, Bounded, Choice, EditRefusal, Name, Rate, Uncertain};

impl Plan {
    /// Appends a controllable event.
    pub fn add_event(&mut self, name: Name) -> Result<(), EditRefusal>
        ensures answer { Answers (event_refusal self.old name) result }
        ensures ok { OnOk result (self.new ≡ with_event self.old name) }
        ensures err { OnErr result (self.new ≡ self.old) }
    {
        if self.find_event(name).is_some() {
            return Err(EditRefusal::Taken);
        }
        if let Some(refusal) = self.full_of_events() {
            return Err(refusal);
        }
        // By its type the name is one, as the plan keeps.
        let _ = name.bytes();
        self.events.insert(name)?;
        Ok(())
    }

    /// Appends a duration from the controllable event `start` to its own end, an event of the name
    /// `end`: from `lower` to `upper` units long. A side with a rate may be narrowed at that price.
    pub fn add_uncertain(
        &mut self,
        name: Name,
        start: Name,
        end: Name,
        lower: i64,
        upper: i64,
        lower_rate: Option<Rate>,
        upper_rate: Option<Rate>,
    ) -> Result<(), EditRefusal>
        requires lower { IsRangeEnd lower }
        requires upper { IsRangeEnd upper }
        requires lower_rate { IfSome lower_rate IsRate }
        requires upper_rate { IfSome upper_rate IsRate }
        ensures answer { Answers (uncertain_refusal self.old name start end lower upper) result }
        ensures ok { OnOk result (AddsUncertain self.old self.new (record {
          name = name;
          start = start;
          end = end;
          lower = lower;
          upper = upper;
          lower_rate = lower_rate;
          upper_rate = upper_rate;
        })) }
        ensures err { OnErr result (self.new ≡ self.old) }
    {
        if let Some(refusal) = self.uncertain_refusal(name, start, end, lower, upper) {
            return Err(refusal);
        }
        let made = Uncertain {
            name,
            start: self.start_of(start),
            end,
            lower,
            upper,
            lower_rate,
            upper_rate,
        };
        // By their type the names are names, as the plan keeps.
        let _ = name.bytes();
        let _ = end.bytes();
        // With room in both tables neither insertion fails.
        self.ends.reserve(1)?;
        self.uncertains.reserve(1)?;
        self.ends.insert(end).unwrap();
        self.uncertains.insert(name, made).unwrap();
        Ok(())
    }

    /// Appends a choice among at least one alternative, under the guard that the literals spell, each
    /// by the name of its choice and the name of its alternative.
    pub fn add_choice(
        &mut self,
        name: Name,
        alternatives: &[(Name, u32)],
        guard: &[(Name, Name)],
    ) -> Result<(), EditRefusal>
        requires some { 1 ≤ length alternatives.now }
        requires costs { All (λ a. IsAmount a.1) alternatives.now }
        ensures answer { Answers (choice_refusal self.old name alternatives.now guard.now) result }
        ensures ok { OnOk result (AddsChoice self.old self.new (record {
          name = name;
          alternatives = alternatives.now;
          guard = guard.now;
        })) }
        ensures err { OnErr result (self.new ≡ self.old) }
    {
        if let Some(refusal) = self.choice_refusal(name, alternatives, guard) {
            return Err(refusal);
        }
        let made = Choice {
            name,
            alternatives: Alternatives::from_slice(*self.choices.allocator(), alternatives)?,
            guard: self.guard_of(guard),
        };
        // By its type the name is one, as the plan keeps.
        let _ = name.bytes();
        self.choices.insert(name, made)?;
        Ok(())
    }

    /// Appends a requirement, under the guard that the literals spell, each by the name of its choice
    /// and the name of its alternative. It gets the least slot that no requirement has.
    pub fn add_requirement(
        &mut self,
        name: Name,
        from: Name,
        to: Name,
        lower: Bounded,
        upper: Bounded,
        guard: &[(Name, Name)],
    ) -> Result<(), EditRefusal>
        requires lower { AreWithinLimits lower }
        requires upper { AreWithinLimits upper }
        ensures answer { Answers
            (requirement_refusal self.old name from to lower upper guard.now) result }
        ensures ok { OnOk result (AddsRequirement self.old self.new (record {
          name = name;
          from = from;
          to = to;
          lower = lower;
          upper = upper;
          guard = guard.now;
        })) }
        ensures err { OnErr result (self.new ≡ self.old) }
    {
        if let Some(refusal) = self.requirement_refusal(name, from, to, lower, upper, guard) {
            return Err(refusal);
        }
        let made = self.requirement_of(name, from, to, lower, upper, guard);
        // By its type the name is one, as the plan keeps.
        let _ = name.bytes();
        self.requirements.insert(name, made)?;
        Ok(())
    }
}
