//! What the units of a side cost.
ghost use Rattle.std.specs.Prelude.{◌≡◌};
ghost use Rattle.uhura_plan.specs.Sides.{rate_in};

/// A second, greater price: units past the first `after`, from 1 to 1,000,000,000, cost `rate` each,
/// at most 1,000,000.
#[derive(Clone, Copy, Debug, PartialEq, Eq)]
pub struct Second {
    pub after: u32,
    pub rate: u32,
}

/// What a unit of a side costs, from 1 to 1,000,000, and what one past the first so many costs.
#[derive(Clone, Copy, Debug, PartialEq, Eq)]
pub struct Rate {
    pub first: u32,
    pub second: Option<Second>,
}

/// The price of loosening a requirement's side: what a unit costs, as in a `Rate`, and the most units it may be
/// loosened by, at most 1,000,000,000.
#[derive(Clone, Copy, Debug, PartialEq, Eq)]
pub struct Price {
    pub rate: u32,
    pub second: Option<Second>,
    pub most: Option<u32>,
}

impl Price {
    /// What a unit costs.
    pub fn per_unit(&self) -> Rate
        ensures { result ≡ rate_in self.now }
    {
        Rate {
            first: self.rate,
            second: self.second,
        }
    }
}
