//! What a proposal of whole units costs.
ghost use Rattle.std.specs.Prelude.{◌≡◌, ◌≤◌, ℕ, ℤ, sum_by};
ghost use Rattle.uhura_worst.specs.Cost.{second_cost, price_of, narrowings_cost, cost};
ghost use Rattle.uhura_relax.specs.Schedule.{proposal_with};
ghost use Rattle.uhura_check.specs.SideCosts.{with_units, loosened_cost, narrowed_cost};

use crate::keys::{duration_side, requirement_side};
use uhura_choice::{Branch, picked_cost};
use uhura_plan::{Plan, Rate, Requirement, Side, Uncertain};
use uhura_worst::Loosening;

/// What a proposal costs: the picked alternatives, and the units of all sides.
pub(crate) fn proposal_cost(plan: &Plan, branch: &Branch, loosening: &Loosening) -> u128
    ensures { (times : ℕ → ℤ) → result ≡
        cost plan.now 1 (proposal_with branch.now loosening.now times) }
{
    let picks = u128::from(picked_cost(plan, branch));
    picks + requirements_cost(plan, loosening) + durations_cost(plan, loosening)
}

/// What the units of all requirements cost.
fn requirements_cost(plan: &Plan, loosening: &Loosening) -> u128
    ensures cost { result ≡ sum_by (loosened_cost loosening.now) plan.now.requirements }
    ensures small { result ≤ 1_000_000_000_000_000_000_000_000_000 }
{
    let mut sum = 0;
    for place in 0..plan.requirements() {
        let requirement = plan.requirement(place).unwrap();
        sum += requirement_cost(requirement, loosening);
    }
    sum
}

/// What the units of all durations cost.
fn durations_cost(plan: &Plan, loosening: &Loosening) -> u128
    ensures cost { result ≡ narrowings_cost 1 (with_units loosening.now) 0 plan.now.uncertains }
    ensures small { result ≤ 1_000_000_000_000_000_000_000_000_000 }
{
    let mut sum = 0;
    for place in 0..plan.uncertains() {
        let uncertain = plan.uncertain(place).unwrap();
        sum += duration_cost(place, uncertain, loosening);
    }
    sum
}

/// What the units of both sides of a requirement cost.
fn requirement_cost(requirement: &Requirement, loosening: &Loosening) -> u128
    ensures cost { result ≡ loosened_cost loosening.now requirement.now }
    ensures small { result ≤ 200_000_000_000_000_000_000_000 }
{
    let lower = loosening.units(requirement_side(requirement, Side::Lower));
    let upper = loosening.units(requirement_side(requirement, Side::Upper));
    price_of(requirement.rate(Side::Lower), lower) + price_of(requirement.rate(Side::Upper), upper)
}

/// What the units of both sides of the duration in a place cost.
fn duration_cost(duration: u32, uncertain: &Uncertain, loosening: &Loosening) -> u128
    ensures cost { result ≡ narrowed_cost loosening.now duration uncertain.now }
    ensures small { result ≤ 200_000_000_000_000_000_000_000 }
{
    let lower = loosening.units(duration_side(duration, Side::Lower));
    let upper = loosening.units(duration_side(duration, Side::Upper));
    price_of(uncertain.rate(Side::Lower), lower) + price_of(uncertain.rate(Side::Upper), upper)
}

/// What so many units cost at a rate: nothing where there is none.
fn price_of(rate: Option<Rate>, units: u64) -> u128
    requires { units ≤ 10_000_000_000_000 }
    ensures price { result ≡ price_of 1 rate units }
    ensures small { result ≤ 100_000_000_000_000_000_000_000 }
{
    match rate {
        Some(rate) => u128::from(rate.first) * u128::from(units) + second_cost(rate, units),
        None => 0,
    }
}

/// What so many units cost beyond the first price.
fn second_cost(rate: Rate, units: u64) -> u128
    requires { units ≤ 10_000_000_000_000 }
    ensures cost { result ≡ second_cost 1 rate units }
    ensures small { result ≤ 50_000_000_000_000_000_000_000 }
{
    match rate.second {
        Some(second) => {
            let more = second.rate.saturating_sub(rate.first);
            let past = units.saturating_sub(u64::from(second.after));
            u128::from(more) * u128::from(past)
        }
        None => 0,
    }
}
