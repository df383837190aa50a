//! Whether an edit is refused, and why.
ghost use Rattle.std.specs.Prelude.{◌≡◌, map, bytes_eq};
ghost use Rattle.std.specs.List.{list_any};
ghost use Rattle.uhura_plan.specs.Refusals.{full, carried, unknown_in, empty_between, repeated_at, repeated_in, requirement_refusal};

mod choice;
mod uncertain;

use super::Plan;
use crate::{Bounded, EditRefusal, Name, REQUIREMENTS};

impl Plan {
    /// The first refusal of a requirement, where there is one.
    pub(super) fn requirement_refusal(
        &self,
        name: Name,
        from: Name,
        to: Name,
        lower: Bounded,
        upper: Bounded,
        guard: &[(Name, Name)],
    ) -> Option<EditRefusal>
        ensures { result ≡ requirement_refusal self.now name from to lower upper guard.now }
    {
        if self.find_requirement(name).is_some() {
            return Some(EditRefusal::Taken);
        }
        if self.find_event(from).is_none() {
            return Some(EditRefusal::Unknown { which: 1 });
        }
        if self.find_event(to).is_none() {
            return Some(EditRefusal::Unknown { which: 2 });
        }
        if let Some(refusal) = self.unknown_in(3, guard) {
            return Some(refusal);
        }
        if from == to {
            return Some(EditRefusal::Kind);
        }
        if let Some(refusal) = empty_between(lower.bound, upper.bound) {
            return Some(refusal);
        }
        if let Some(refusal) = repeated_in(guard) {
            return Some(refusal);
        }
        reached(REQUIREMENTS, self.requirements())
    }

    /// The refusal of literals for a name that isn't there, each spelled by the name of its choice and the name of its
    /// alternative; so many names of the call stand before them.
    pub fn unknown_in(&self, before: u32, guard: &[(Name, Name)]) -> Option<EditRefusal>
        ensures { result ≡ unknown_in self.now before guard.now }
    {
        let mut which = before;
        for (choice, alternative) in guard {
            let Some(place) = self.find_choice(*choice) else {
                return Some(EditRefusal::Unknown { which });
            };
            if self.find_alternative(place, *alternative).is_none() {
                return Some(EditRefusal::Unknown {
                    which: which.saturating_add(1),
                });
            }
            which = which.saturating_add(2);
        }
        None
    }
}

/// The refusal of one more thing, where as many are there as the limit allows.
fn reached(limit: u32, has: u32) -> Option<EditRefusal>
    ensures { result ≡ full limit has }
{
    if has >= limit {
        return Some(EditRefusal::Full { limit, has });
    }
    None
}

/// The refusal of a lower bound above the upper bound.
pub(super) fn empty_between(lower: Option<i64>, upper: Option<i64>) -> Option<EditRefusal>
    ensures { result ≡ empty_between lower upper }
{
    match (lower, upper) {
        (Some(lower), Some(upper)) if upper < lower => Some(EditRefusal::Empty { lower, upper }),
        _ => None,
    }
}

/// The refusal of the first literal that names a choice already named.
pub fn repeated_in(guard: &[(Name, Name)]) -> Option<EditRefusal>
    ensures { result ≡ repeated_in guard.now }
{
    match repeated_at(guard) {
        Some(at) => Some(EditRefusal::Guard { at: carried(at) }),
        None => None,
    }
}

/// The first place whose name stands at an earlier place too.
fn repeated_at<T: Copy>(named: &[(Name, T)]) -> Option<usize>
    ensures { result ≡ repeated_at (map (λ pair. pair.0) named.now) }
{
    for (at, (name, _)) in named.iter().enumerate() {
        if has_name(&named[..at], *name) {
            return Some(at);
        }
    }
    None
}

/// Whether one of these pairs has the name.
fn has_name<T: Copy>(named: &[(Name, T)], name: Name) -> bool
    ensures { result ≡ list_any (λ pair. bytes_eq name pair.0) named.now }
{
    named.iter().any(|pair| name == pair.0)
}

/// A place as a `u32` carries it.
fn carried(place: usize) -> u32
    ensures { result ≡ carried place }
{
    u32::try_from(place).unwrap_or(u32::MAX)
}
