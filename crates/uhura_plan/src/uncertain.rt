//! A duration that nature picks.
ghost use Rattle.std.specs.Prelude.{◌≡◌};
ghost use Rattle.uhura_plan.specs.Changes.{with_rate, with_range};
ghost use Rattle.uhura_plan.specs.Sides.{rate_of};

use crate::{Name, Rate, Side};

/// A duration from the controllable event `start` to its own end, from `lower` to `upper` units long.
/// A side with a rate may be narrowed at that price.
#[derive(Clone, Drop)]
pub struct Uncertain {
    pub name: Name,
    pub start: u32,
    pub end: Name,
    pub lower: i64,
    pub upper: i64,
    pub lower_rate: Option<Rate>,
    pub upper_rate: Option<Rate>,
}

impl Uncertain {
    /// What a unit of the side costs, where it has a price.
    pub fn rate(&self, side: Side) -> Option<Rate>
        ensures { result ≡ rate_of side self.now }
    {
        match side {
            Side::Lower => self.lower_rate,
            Side::Upper => self.upper_rate,
        }
    }

    /// Puts the rate on the side.
    pub(crate) fn set_rate(&mut self, side: Side, rate: Option<Rate>)
        ensures { self.new ≡ with_rate side rate self.old }
    {
        match side {
            Side::Lower => self.lower_rate = rate,
            Side::Upper => self.upper_rate = rate,
        }
    }

    /// Sets both ends of the range.
    pub(crate) fn set_range(&mut self, lower: i64, upper: i64)
        ensures { self.new ≡ with_range lower upper self.old }
    {
        self.lower = lower;
        self.upper = upper;
    }
}
