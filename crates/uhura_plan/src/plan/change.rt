//! The edits that change an item in place, or take it out. They take no memory.
ghost use Rattle.std.specs.Prelude.{◌≡◌, OnOk, OnErr, IfSome};
ghost use Rattle.uhura_plan.specs.Limits.{IsBound, IsPrice, IsRate, IsRangeEnd, IsAmount};
ghost use Rattle.uhura_plan.specs.Changes.{with_bound, with_price, with_rate, with_range, with_cost, change_requirement, change_uncertain, change_choice, without_requirement};
ghost use Rattle.uhura_plan.specs.Refusals.{AnswersAlways, no_requirement, no_uncertain, bound_refusal, range_refusal, preference_refusal};

use super::Plan;
use super::refuse::empty_between;
use crate::{EditRefusal, Name, Price, Rate, Side};

impl Plan {
    /// Takes a requirement out. Those behind it close up, and keep their slots.
    pub fn drop_requirement(&mut self, name: Name) -> Result<(), EditRefusal>
        ensures answer { AnswersAlways (no_requirement self.old name) result }
        ensures ok { OnOk result (self.new ≡ without_requirement name self.old) }
        ensures err { OnErr result (self.new ≡ self.old) }
    {
        let Some(place) = self.requirements.get_index_of(&name) else {
            return Err(EditRefusal::Unknown { which: 0 });
        };
        self.requirements.shift_remove_index(place);
        Ok(())
    }

    /// Puts a bound on a side of a requirement, or takes it away.
    pub fn set_bound(
        &mut self,
        name: Name,
        side: Side,
        bound: Option<i64>,
    ) -> Result<(), EditRefusal>
        requires { IfSome bound IsBound }
        ensures answer { AnswersAlways (bound_refusal self.old name side bound) result }
        ensures ok { OnOk result (
            self.new ≡ change_requirement (with_bound side bound) name self.old) }
        ensures err { OnErr result (self.new ≡ self.old) }
    {
        let Some(place) = self.requirements.get_index_of(&name) else {
            return Err(EditRefusal::Unknown { which: 0 });
        };
        let (lower, upper) = self.requirements[place].bounds_with(side, bound);
        if let Some(refusal) = empty_between(lower, upper) {
            return Err(refusal);
        }
        self.requirements[place].set_bound(side, bound);
        Ok(())
    }

    /// Puts a price on a side of a requirement, or takes it away.
    pub fn set_price(
        &mut self,
        name: Name,
        side: Side,
        price: Option<Price>,
    ) -> Result<(), EditRefusal>
        requires { IfSome price IsPrice }
        ensures answer { AnswersAlways (no_requirement self.old name) result }
        ensures ok { OnOk result (
            self.new ≡ change_requirement (with_price side price) name self.old) }
        ensures err { OnErr result (self.new ≡ self.old) }
    {
        let Some(place) = self.requirements.get_index_of(&name) else {
            return Err(EditRefusal::Unknown { which: 0 });
        };
        self.requirements[place].set_price(side, price);
        Ok(())
    }

    /// Puts a rate on a side of a duration, or takes it away.
    pub fn set_rate(
        &mut self,
        name: Name,
        side: Side,
        rate: Option<Rate>,
    ) -> Result<(), EditRefusal>
        requires { IfSome rate IsRate }
        ensures answer { AnswersAlways (no_uncertain self.old name) result }
        ensures ok { OnOk result (self.new ≡ change_uncertain (with_rate side rate) name self.old) }
        ensures err { OnErr result (self.new ≡ self.old) }
    {
        let Some(place) = self.uncertains.get_index_of(&name) else {
            return Err(EditRefusal::Unknown { which: 0 });
        };
        self.uncertains[place].set_rate(side, rate);
        Ok(())
    }

    /// Sets both ends of a duration's range.
    pub fn set_range(&mut self, name: Name, lower: i64, upper: i64) -> Result<(), EditRefusal>
        requires lower { IsRangeEnd lower }
        requires upper { IsRangeEnd upper }
        ensures answer { AnswersAlways (range_refusal self.old name lower upper) result }
        ensures ok { OnOk result (
            self.new ≡ change_uncertain (with_range lower upper) name self.old) }
        ensures err { OnErr result (self.new ≡ self.old) }
    {
        let Some(place) = self.uncertains.get_index_of(&name) else {
            return Err(EditRefusal::Unknown { which: 0 });
        };
        if let Some(refusal) = empty_between(Some(lower), Some(upper)) {
            return Err(refusal);
        }
        self.uncertains[place].set_range(lower, upper);
        Ok(())
    }

    /// Sets the cost of a choice's alternative.
    pub fn set_preference(
        &mut self,
        choice: Name,
        alternative: Name,
        cost: u32,
    ) -> Result<(), EditRefusal>
        requires { IsAmount cost }
        ensures answer { AnswersAlways (preference_refusal self.old choice alternative) result }
        ensures ok { OnOk result (
            self.new ≡ change_choice (with_cost alternative cost) choice self.old) }
        ensures err { OnErr result (self.new ≡ self.old) }
    {
        let Some(place) = self.choices.get_index_of(&choice) else {
            return Err(EditRefusal::Unknown { which: 0 });
        };
        if self.choices[place].alternatives.find(alternative).is_none() {
            return Err(EditRefusal::Unknown { which: 1 });
        }
        self.choices[place].alternatives.set_cost(alternative, cost);
        Ok(())
    }
}
