//! The generator: each draw takes the number that follows its last one.
ghost use Rattle.std.specs.Prelude.{◌≡◌, ◌+◌, ◌<◌, ◌≤◌};
ghost use Rattle.uhura_gen.specs.Draws.{following, after, drawn, span_drawn, IsWithinPlan};
ghost use Rattle.uhura_plan.specs.Limits.{IsUnitPrice};

/// What a number is multiplied by.
const MULTIPLIER: u64 = 48271;

/// What the product is divided by: its remainder is the number that follows.
const MODULUS: u64 = 2_147_483_647;

/// The most that an end of a range, its width and a price are drawn below.
const MODEST: u32 = 1000;

/// A generator, at one of its numbers.
#[derive(Drop)]
pub(crate) struct Generator {
    pub(crate) x: u32,
}

/// A range, and the prices of its ends.
#[derive(Clone, Copy)]
pub(crate) struct Span {
    pub(crate) lower: i64,
    pub(crate) upper: i64,
    pub(crate) lower_price: u32,
    pub(crate) upper_price: u32,
}

impl Generator {
    /// A draw below the limit.
    pub(crate) fn draw(&mut self, limit: u32) -> u32
        requires { 0 < limit }
        ensures number { self.new.x ≡ following self.old.x }
        ensures draw { result ≡ drawn self.old.x 0 limit }
        ensures below { result < limit }
    {
        self.x = (MULTIPLIER * self.x as u64 % MODULUS) as u32;
        self.x % limit
    }

    /// A price for a unit, at most this one.
    pub(crate) fn price(&mut self, most: u32) -> u32
        requires some { 0 < most }
        requires modest { most ≤ MODEST }
        ensures number { self.new.x ≡ following self.old.x }
        ensures draw { result ≡ 1 + drawn self.old.x 0 most }
        ensures price { IsUnitPrice result }
    {
        1 + self.draw(most)
    }

    /// A range whose lower end is below `low` and whose upper end is less than `wide` above it, and
    /// prices of at most 9.
    pub(crate) fn span(&mut self, low: u32, wide: u32) -> Span
        requires low { 0 < low }
        requires wide { 0 < wide }
        requires modest { low + wide ≤ MODEST }
        ensures number { self.new.x ≡ after self.old.x 4 }
        ensures span { result ≡ span_drawn self.old.x low wide }
        ensures within { IsWithinPlan result }
    {
        let lower = self.draw(low);
        let width = self.draw(wide);
        Span {
            lower: lower as i64,
            upper: (lower + width) as i64,
            lower_price: self.price(9),
            upper_price: self.price(9),
        }
    }
}
