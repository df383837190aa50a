//! The answer of a document, as it is read.
ghost use Rattle.std.specs.Prelude.{◌≡◌, true, false, length, slice_get, Some};
ghost use Rattle.uhura_item.specs.Item.{IsItem};
ghost use Rattle.uhura_cert.specs.Machine.{answered, entries, FromPicks, FromSides, FromTimes};
ghost use Rattle.uhura_cert.specs.Reading.{draft_of, spot_of, StepsTo};

use super::Reader;
use crate::next::{is_next_event, next_pick, next_side};
use crate::place::Place;
use crate::sides::Sides;
use crate::{Listed, Proposal};
use std::alloc::{AllocError, Global};
use std::mem;
use uhura_item::Item;
use uhura_plan::{Name, Plan};

/// Whether the event's time comes next.
fn is_next_time(plan: &Plan, times: &[u64], event: Name) -> bool
    ensures yes { result ≡ true → slice_get plan.now.events (length times.now) ≡ Some event }
    ensures no { result ≡ false →
        slice_get plan.now.events (length times.now) ≡ Some event → ⊥ }
{
    times.len() < plan.events() as usize && is_next_event(plan, times.len() as u32, event)
}

/// Whether there is a time for each event.
fn are_all_times(plan: &Plan, times: &[u64]) -> bool
    ensures yes { result ≡ true → length times.now ≡ length plan.now.events }
    ensures no { result ≡ false → length times.now ≡ length plan.now.events → ⊥ }
{
    times.len() == plan.events() as usize
}

impl Reader {
    /// Another pick, or what may follow the picks.
    pub(crate) fn in_picks(&mut self, alloc: Global, item: &Item) -> Result<bool, AllocError>
        requires { IsItem item.now }
        ensures { StepsTo result
            (FromPicks self.old.version self.old.state self.old.cost self.old.picks.items item.now)
            (spot_of self.new) }
    {
        let Item::Pick(choice, alternative) = item else {
            self.sides = Sides::new(alloc);
            return self.in_sides(alloc, item);
        };
        let picks = self.picks.as_slice();
        let Some(literal) = next_pick(&self.state.plan, picks, *choice, *alternative) else {
            return Ok(false);
        };
        self.place = Place::Picks;
        self.picks.push(literal)?;
        Ok(true)
    }

    /// Another side, or what may follow the sides.
    pub(crate) fn in_sides(&mut self, alloc: Global, item: &Item) -> Result<bool, AllocError>
        requires { IsItem item.now }
        ensures { StepsTo result
            (FromSides self.old.version self.old.state self.old.cost self.old.picks.items
            self.old.sides item.now)
            (spot_of self.new) }
    {
        let Item::Relax(name, side, units) = item else {
            self.times = Vec::new(alloc);
            return self.in_times(alloc, item);
        };
        let sides = self.sides.pairs();
        let Some(key) = next_side(&self.state.plan, sides, *name, *side) else {
            return Ok(false);
        };
        self.place = Place::Sides;
        self.sides.add(key, *units)?;
        Ok(true)
    }

    /// Another event's time, or the end of the proposal.
    pub(crate) fn in_times(&mut self, alloc: Global, item: &Item) -> Result<bool, AllocError>
        ensures { StepsTo result
            (FromTimes self.old.version self.old.state (draft_of self.old) item.now)
            (spot_of self.new) }
    {
        match item {
            Item::At(event, time) => self.take_time(*event, *time),
            Item::End => self.end_proposal(alloc),
            _ => Ok(false),
        }
    }

    /// The time of an event, where it comes next.
    fn take_time(&mut self, event: Name, time: u64) -> Result<bool, AllocError>
        ensures { StepsTo result
            (FromTimes self.old.version self.old.state (draft_of self.old) (Item.At event time))
            (spot_of self.new) }
    {
        if !is_next_time(&self.state.plan, self.times.as_slice(), event) {
            return Ok(false);
        }
        self.place = Place::Times;
        self.times.push(time)?;
        Ok(true)
    }

    /// The end of the proposal, where each event has its time.
    fn end_proposal(&mut self, alloc: Global) -> Result<bool, AllocError>
        ensures { StepsTo result
            (FromTimes self.old.version self.old.state (draft_of self.old) Item.End)
            (spot_of self.new) }
    {
        if !are_all_times(&self.state.plan, self.times.as_slice()) {
            return Ok(false);
        }
        let proposal = Proposal {
            cost: self.cost,
            picks: Listed::from_vec(mem::replace(&mut self.picks, Vec::new(alloc))),
            loosening: mem::replace(&mut self.sides, Sides::new(alloc)).into_loosening(),
            times: Listed::from_vec(mem::replace(&mut self.times, Vec::new(alloc))),
        };
        self.begin_entries(alloc, Some(proposal));
        Ok(true)
    }

    /// The answer stands, and nothing behind it.
    pub(crate) fn begin_entries(&mut self, alloc: Global, answer: Option<Proposal>)
        ensures { spot_of self.new ≡
            entries (answered self.old.version self.old.state answer) }
    {
        self.place = Place::Entries;
        self.answer = answer;
        self.shared = Vec::new(alloc);
        self.leaves = Vec::new(alloc);
    }
}
