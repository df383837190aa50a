//! Whether a proposal meets the requirements whatever the durations left. It does where each is met with the one
//! event as early and the other as late as it may be, so no durations are tried one by one.
ghost use Rattle.std.specs.Prelude.{◌≡◌, ◌+ℤ◌, ◌-ℤ◌, ◌≤ℤ◌, pos, neg_ℤ, List, All, Contains, MatchOption};
ghost use Rattle.std.specs.Bool.{Decides};
ghost use Rattle.uhura_choice.specs.declared.prefix.Pick.{Pick};
ghost use Rattle.uhura_relax.specs.Schedule.{scheduled_time};
ghost use Rattle.uhura_worst.specs.WorstCase.{LeavesRanges};
ghost use Rattle.uhura_check.specs.Conditions.{IsMet};
ghost use Rattle.uhura_check.specs.Firsts.{IsFirstNot};
ghost use Rattle.uhura_check.specs.Extremes.{proposal_by, earliest_of, latest_of};
ghost use Rattle.uhura_check.specs.Extremes.{IsLongEnough, IsShortEnough, IsMetAtExtremes};

use crate::keys::{duration_side, requirement_side};
use uhura_choice::{Branch, holds};
use uhura_plan::{EventRef, Plan, Requirement, Side};
use uhura_worst::Loosening;

/// The place of the first requirement that isn't met, where there is one.
pub(crate) fn first_not_met(
    plan: &Plan,
    branch: &Branch,
    loosening: &Loosening,
    times: &[u64],
) -> Option<u32>
    requires { LeavesRanges plan.now 1 (proposal_by branch.now loosening.now times.now) }
    ensures { MatchOption result
        (All (IsMet plan.now (proposal_by branch.now loosening.now times.now))
        plan.now.requirements)
        (IsFirstNot (IsMet plan.now (proposal_by branch.now loosening.now times.now))
        plan.now.requirements) }
{
    for place in 0..plan.requirements() {
        let requirement = plan.requirement(place).unwrap();
        if !is_met(plan, branch, loosening, times, requirement) {
            return Some(place);
        }
    }
    None
}

/// Whether a requirement, where it is active, is met whatever the durations left.
fn is_met(
    plan: &Plan,
    branch: &Branch,
    loosening: &Loosening,
    times: &[u64],
    requirement: &Requirement,
) -> bool
    requires there { Contains plan.now.requirements requirement.now }
    requires ranges { LeavesRanges plan.now 1 (proposal_by branch.now loosening.now times.now) }
    ensures { Decides result (IsMet plan.now (proposal_by branch.now loosening.now times.now)
        requirement.now) }
{
    // By its type the plan is sound.
    let _ = plan.choices();
    !holds(&requirement.guard, branch) || is_met_at_extremes(plan, loosening, times, requirement)
}

/// Whether a requirement is met where the one event is as early and the other as late as it may be.
fn is_met_at_extremes(
    plan: &Plan,
    loosening: &Loosening,
    times: &[u64],
    requirement: &Requirement,
) -> bool
    ensures { (branch : List Pick) → Decides result (IsMetAtExtremes plan.now
        (proposal_by branch loosening.now times.now) requirement.now) }
{
    is_long_enough(plan, loosening, times, requirement)
        && is_short_enough(plan, loosening, times, requirement)
}

/// Whether the least difference of the times is at least the lower bound less its units.
fn is_long_enough(
    plan: &Plan,
    loosening: &Loosening,
    times: &[u64],
    requirement: &Requirement,
) -> bool
    ensures { (branch : List Pick) → Decides result (IsLongEnough plan.now
        (proposal_by branch loosening.now times.now) requirement.now) }
{
    let Some(least) = requirement.lower.bound else {
        return true;
    };
    let units = loosening.units(requirement_side(requirement, Side::Lower));
    let to = earliest(plan, loosening, times, requirement.to);
    let from = latest(plan, loosening, times, requirement.from);
    is_apart(least, units, from, to)
}

/// Whether the greatest difference of the times is at most the upper bound and its units.
fn is_short_enough(
    plan: &Plan,
    loosening: &Loosening,
    times: &[u64],
    requirement: &Requirement,
) -> bool
    ensures { (branch : List Pick) → Decides result (IsShortEnough plan.now
        (proposal_by branch loosening.now times.now) requirement.now) }
{
    let Some(most) = requirement.upper.bound else {
        return true;
    };
    let units = loosening.units(requirement_side(requirement, Side::Upper));
    let to = latest(plan, loosening, times, requirement.to);
    let from = earliest(plan, loosening, times, requirement.from);
    is_near(most, units, from, to)
}

/// Whether a time is at least so much after another, less so many units.
fn is_apart(least: i64, units: u64, from: i128, to: i128) -> bool
    requires from_least { neg_ℤ (pos 40_000_000_000_000_000_000) ≤ℤ from }
    requires from_most { from ≤ℤ pos 40_000_000_000_000_000_000 }
    requires to_least { neg_ℤ (pos 40_000_000_000_000_000_000) ≤ℤ to }
    requires to_most { to ≤ℤ pos 40_000_000_000_000_000_000 }
    ensures { Decides result ((least -ℤ pos units) ≤ℤ (to -ℤ from)) }
{
    i128::from(least) - i128::from(units) <= to - from
}

/// Whether a time is at most so much after another, and so many units.
fn is_near(most: i64, units: u64, from: i128, to: i128) -> bool
    requires from_least { neg_ℤ (pos 40_000_000_000_000_000_000) ≤ℤ from }
    requires from_most { from ≤ℤ pos 40_000_000_000_000_000_000 }
    requires to_least { neg_ℤ (pos 40_000_000_000_000_000_000) ≤ℤ to }
    requires to_most { to ≤ℤ pos 40_000_000_000_000_000_000 }
    ensures { Decides result ((to -ℤ from) ≤ℤ (most +ℤ pos units)) }
{
    to - from <= i128::from(most) + i128::from(units)
}

/// The earliest time of an event.
fn earliest(plan: &Plan, loosening: &Loosening, times: &[u64], event: EventRef) -> i128
    ensures time { (branch : List Pick) → result ≡ earliest_of plan.now
        (proposal_by branch loosening.now times.now) event }
    ensures least { neg_ℤ (pos 40_000_000_000_000_000_000) ≤ℤ result }
    ensures most { result ≤ℤ pos 40_000_000_000_000_000_000 }
{
    match event {
        EventRef::Controllable(event) => time_of(times, event),
        EventRef::End(duration) => match plan.uncertain(duration) {
            Some(uncertain) => {
                let units = loosening.units(duration_side(duration, Side::Lower));
                let least = i128::from(uncertain.lower) + i128::from(units);
                time_of(times, uncertain.start) + least
            }
            None => 0,
        },
    }
}

/// The latest time of an event.
fn latest(plan: &Plan, loosening: &Loosening, times: &[u64], event: EventRef) -> i128
    ensures time { (branch : List Pick) → result ≡ latest_of plan.now
        (proposal_by branch loosening.now times.now) event }
    ensures least { neg_ℤ (pos 40_000_000_000_000_000_000) ≤ℤ result }
    ensures most { result ≤ℤ pos 40_000_000_000_000_000_000 }
{
    match event {
        EventRef::Controllable(event) => time_of(times, event),
        EventRef::End(duration) => match plan.uncertain(duration) {
            Some(uncertain) => {
                let units = loosening.units(duration_side(duration, Side::Upper));
                let greatest = i128::from(uncertain.upper) - i128::from(units);
                time_of(times, uncertain.start) + greatest
            }
            None => 0,
        },
    }
}

/// The time of a controllable event, 0 past the end of the times.
fn time_of(times: &[u64], event: u32) -> i128
    ensures time { result ≡ scheduled_time times.now event }
    ensures least { pos 0 ≤ℤ result }
    ensures most { result ≤ℤ pos 18_446_744_073_709_551_615 }
{
    match times.get(event as usize) {
        Some(time) => i128::from(*time),
        None => 0,
    }
}
