//! The refusals of a duration.
ghost use Rattle.std.specs.Prelude.{◌≡◌, Some};
ghost use Rattle.uhura_plan.specs.Refusals.{is_end, full_of_events, uncertain_refusal};

use super::{empty_between, reached};
use crate::plan::Plan;
use crate::{EVENTS, EditRefusal, EventRef, Name, UNCERTAINS};

impl Plan {
    /// The first refusal of a duration, where there is one.
    pub(in crate::plan) fn uncertain_refusal(
        &self,
        name: Name,
        start: Name,
        end: Name,
        lower: i64,
        upper: i64,
    ) -> Option<EditRefusal>
        ensures { result ≡ uncertain_refusal self.now name start end lower upper }
    {
        if self.find_uncertain(name).is_some() {
            return Some(EditRefusal::Taken);
        }
        if self.find_event(end).is_some() {
            return Some(EditRefusal::Taken);
        }
        if end == start {
            return Some(EditRefusal::Taken);
        }
        let Some(from) = self.find_event(start) else {
            return Some(EditRefusal::Unknown { which: 1 });
        };
        if is_end(from) {
            return Some(EditRefusal::Kind);
        }
        if let Some(refusal) = empty_between(Some(lower), Some(upper)) {
            return Some(refusal);
        }
        if let Some(refusal) = reached(UNCERTAINS, self.uncertains()) {
            return Some(refusal);
        }
        self.full_of_events()
    }

    /// The refusal of one more event or end of a duration, where the plan has all that it may have.
    pub(in crate::plan) fn full_of_events(&self) -> Option<EditRefusal>
        ensures { result ≡ full_of_events self.now }
    {
        reached(EVENTS, self.events() + self.uncertains())
    }
}

/// Whether an event is the end of a duration.
fn is_end(event: EventRef) -> bool
    ensures { result ≡ is_end (Some event) }
{
    matches!(event, EventRef::End(_))
}
