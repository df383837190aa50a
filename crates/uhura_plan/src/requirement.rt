//! A bound on the difference of two event times, from below, from above or both.
ghost use Rattle.std.specs.Prelude.{◌≡◌};
ghost use Rattle.uhura_plan.specs.Changes.{with_bound, with_price};
ghost use Rattle.uhura_plan.specs.Sides.{bounded_of, loosening_rate};

use crate::{EventRef, Guard, Name, Price, Rate, Side};

/// A side's bound, from -1,000,000,000 to 1,000,000,000, and its price. Without a bound the price has
/// no effect.
#[derive(Clone, Copy, Debug, PartialEq, Eq)]
pub struct Bounded {
    pub bound: Option<i64>,
    pub price: Option<Price>,
}

/// The time of `to` minus the time of `from` is at least the lower bound and at most the upper bound,
/// where the guard holds. The slot stays with the requirement for as long as it is in the plan.
#[derive(Clone, Drop)]
pub struct Requirement {
    pub name: Name,
    pub slot: u32,
    pub from: EventRef,
    pub to: EventRef,
    pub lower: Bounded,
    pub upper: Bounded,
    pub guard: Guard,
}

impl Requirement {
    /// The bound and the price of the side.
    pub fn bounded(&self, side: Side) -> Bounded
        ensures { result ≡ bounded_of side self.now }
    {
        match side {
            Side::Lower => self.lower,
            Side::Upper => self.upper,
        }
    }

    /// What a unit of the side costs, where it has a price.
    pub fn rate(&self, side: Side) -> Option<Rate>
        ensures { result ≡ loosening_rate side self.now }
    {
        match self.bounded(side).price {
            Some(price) => Some(price.per_unit()),
            None => None,
        }
    }

    /// The lower and the upper bound, where the side has this one.
    pub(crate) fn bounds_with(&self, side: Side, bound: Option<i64>) -> (Option<i64>, Option<i64>)
        ensures lower { result.0 ≡ (with_bound side bound self.now).lower.bound }
        ensures upper { result.1 ≡ (with_bound side bound self.now).upper.bound }
    {
        match side {
            Side::Lower => (bound, self.upper.bound),
            Side::Upper => (self.lower.bound, bound),
        }
    }

    /// Puts the bound on the side.
    pub(crate) fn set_bound(&mut self, side: Side, bound: Option<i64>)
        ensures { self.new ≡ with_bound side bound self.old }
    {
        match side {
            Side::Lower => self.lower.bound = bound,
            Side::Upper => self.upper.bound = bound,
        }
    }

    /// Puts the price on the side.
    pub(crate) fn set_price(&mut self, side: Side, price: Option<Price>)
        ensures { self.new ≡ with_price side price self.old }
    {
        match side {
            Side::Lower => self.lower.price = price,
            Side::Upper => self.upper.price = price,
        }
    }
}
