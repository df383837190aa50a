//! The items that calls state.
ghost use Rattle.std.specs.Prelude.{◌≡◌, ◌<◌, false, is_none, None, Some, IsSome, All};
ghost use Rattle.uhura_plan.specs.declared.limits.TheConstants.{REQUIREMENTS};
ghost use Rattle.uhura_plan.specs.Find.{find_event, literal_named};
ghost use Rattle.uhura_plan.specs.Sound.{IsGuardAmong};
ghost use Rattle.uhura_plan.specs.Edits.{AreLiteralsOf, IsRequirementOf};
ghost use Rattle.uhura_plan.specs.Refusals.{is_end, requirement_refusal, repeated_in};

use super::Plan;
use super::slot::least_free_slot;
use crate::{Bounded, EventRef, Guard, Literal, Name, Requirement};

impl Plan {
    /// The requirement that a call states which isn't refused.
    pub(super) fn requirement_of(
        &self,
        name: Name,
        from: Name,
        to: Name,
        lower: Bounded,
        upper: Bounded,
        guard: &[(Name, Name)],
    ) -> Requirement
        requires { requirement_refusal self.now name from to lower upper guard.now ≡ None }
        ensures stated { IsRequirementOf self.now (record {
          name = name;
          from = from;
          to = to;
          lower = lower;
          upper = upper;
          guard = guard.now;
        }) result }
        ensures guard { IsGuardAmong self.now.choices result.guard }
        ensures slot { result.slot < REQUIREMENTS }
    {
        Requirement {
            name,
            slot: least_free_slot(self.requirements.values().as_slice()),
            from: self.find_event(from).unwrap(),
            to: self.find_event(to).unwrap(),
            lower,
            upper,
            guard: self.guard_of(guard),
        }
    }

    /// The place of the controllable event from which a duration that isn't refused starts.
    pub(super) fn start_of(&self, name: Name) -> u32
        requires there { is_none (find_event self.now name) ≡ false }
        requires no_end { is_end (find_event self.now name) ≡ false }
        ensures { find_event self.now name ≡ Some (EventRef.Controllable result) }
    {
        self.events.get_index_of(&name).unwrap() as u32
    }

    /// The guard of literals that are there, no two of them on one choice, each spelled by the name of its choice and
    /// the name of its alternative.
    pub fn guard_of(&self, names: &[(Name, Name)]) -> Guard
        requires known { All (λ literal. IsSome (literal_named self.now literal)) names.now }
        requires once { repeated_in names.now ≡ None }
        ensures found { AreLiteralsOf self.now names.now result }
        ensures among { IsGuardAmong self.now.choices result }
    {
        // The plan's invariant bounds the number of choices.
        let _ = &self.choices;
        let mut guard = Guard::empty();
        for (choice, alternative) in names {
            let literal = self.literal(*choice, *alternative).unwrap();
            guard.add(literal);
        }
        guard
    }

    /// The literal of a choice and one of its alternatives.
    fn literal(&self, choice: Name, alternative: Name) -> Option<Literal>
        ensures { result ≡ literal_named self.now (choice, alternative) }
    {
        let choice = self.find_choice(choice)?;
        let alternative = self.find_alternative(choice, alternative)?;
        Some(Literal {
            choice,
            alternative,
        })
    }
}
