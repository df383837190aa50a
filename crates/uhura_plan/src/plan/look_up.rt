//! Look-ups, by place, by name and by slot. They take no memory.
ghost use Rattle.std.specs.Prelude.{◌≡◌, length, slice_get, option_copied};
ghost use Rattle.uhura_plan.specs.Find.{find_event, uncertain_named, choice_named, alternative_named, requirement_named, requirement_in};
ghost use Rattle.uhura_plan.specs.Sound.{IsSound};

use super::Plan;
use crate::{Choice, EventRef, Name, Requirement, Uncertain};

impl Plan {
    /// The number of controllable events.
    pub fn events(&self) -> u32
        ensures count { result ≡ length self.now.events }
        ensures sound { IsSound self.now }
    {
        self.events.len() as u32
    }

    /// The name of the controllable event at this place.
    pub fn event(&self, index: u32) -> Option<Name>
        ensures { result ≡ slice_get self.now.events index }
    {
        self.events.get_index(index as usize).copied()
    }

    /// The event of this name: a controllable one, or the end of a duration.
    pub fn find_event(&self, name: Name) -> Option<EventRef>
        ensures { result ≡ find_event self.now name }
    {
        match self.events.get_index_of(&name) {
            Some(index) => Some(EventRef::Controllable(index as u32)),
            None => self
                .ends
                .get_index_of(&name)
                .map(|index| EventRef::End(index as u32)),
        }
    }

    /// The number of durations.
    pub fn uncertains(&self) -> u32
        ensures count { result ≡ length self.now.uncertains }
        ensures sound { IsSound self.now }
    {
        self.uncertains.len() as u32
    }

    /// The duration at this place.
    pub fn uncertain(&self, index: u32) -> Option<&Uncertain>
        ensures { option_copied result ≡ slice_get self.now.uncertains index }
    {
        self.uncertains.values().as_slice().get(index as usize)
    }

    /// The place of the duration of this name.
    pub fn find_uncertain(&self, name: Name) -> Option<u32>
        ensures { result ≡ uncertain_named self.now name }
    {
        self.uncertains
            .get_index_of(&name)
            .map(|index| index as u32)
    }

    /// The number of choices.
    pub fn choices(&self) -> u32
        ensures count { result ≡ length self.now.choices }
        ensures sound { IsSound self.now }
    {
        self.choices.len() as u32
    }

    /// The choice at this place.
    pub fn choice(&self, index: u32) -> Option<&Choice>
        ensures choice { option_copied result ≡ slice_get self.now.choices index }
        ensures sound { IsSound self.now }
    {
        self.choices.values().as_slice().get(index as usize)
    }

    /// The place of the choice of this name.
    pub fn find_choice(&self, name: Name) -> Option<u32>
        ensures { result ≡ choice_named self.now name }
    {
        self.choices.get_index_of(&name).map(|index| index as u32)
    }

    /// The place of the alternative of this name in the choice at this place.
    pub fn find_alternative(&self, choice: u32, name: Name) -> Option<u32>
        ensures { result ≡ alternative_named self.now choice name }
    {
        let place = self.choice(choice)?.alternatives.find(name)?;
        Some(place as u32)
    }

    /// The number of requirements.
    pub fn requirements(&self) -> u32
        ensures count { result ≡ length self.now.requirements }
        ensures sound { IsSound self.now }
    {
        self.requirements.len() as u32
    }

    /// The requirement at this place.
    pub fn requirement(&self, position: u32) -> Option<&Requirement>
        ensures { option_copied result ≡ slice_get self.now.requirements position }
    {
        self.requirements.values().as_slice().get(position as usize)
    }

    /// The requirement in this slot.
    pub fn requirement_in(&self, slot: u32) -> Option<&Requirement>
        ensures { option_copied result ≡ requirement_in self.now slot }
    {
        self.requirements
            .values()
            .as_slice()
            .iter()
            .find(|r| r.slot == slot)
    }

    /// The place of the requirement of this name.
    pub fn find_requirement(&self, name: Name) -> Option<u32>
        ensures { result ≡ requirement_named self.now name }
    {
        self.requirements
            .get_index_of(&name)
            .map(|index| index as u32)
    }
}
