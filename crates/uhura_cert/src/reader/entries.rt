//! The shared entries of a document, as they are read.
ghost use Rattle.std.specs.Prelude.{Ok};
ghost use Rattle.uhura_cert.specs.Machine.{FromEntries, FromEntryFlow, FromEntryWalk};
ghost use Rattle.uhura_cert.specs.Reading.{document_of, spot_of, StepsTo};

use super::Reader;
use crate::named::find_edge;
use crate::next::next_edge;
use crate::place::Place;
use crate::{Listed, Shared};
use std::alloc::{AllocError, Global};
use std::mem;
use uhura_item::Item;

impl Reader {
    /// Another entry in version 2, or what may follow the entries.
    pub(crate) fn in_entries(&mut self, alloc: Global, item: &Item) -> Result<bool, AllocError>
        ensures { StepsTo result (FromEntries (document_of self.old) item.now)
            (spot_of self.new) }
    {
        match item {
            Item::SharedFlow => Ok(self.begin_flow(alloc)),
            Item::SharedStuck => Ok(self.begin_walk(alloc)),
            _ => self.in_leaves(alloc, item),
        }
    }

    /// A shared circulation, which stands there in version 2.
    fn begin_flow(&mut self, alloc: Global) -> bool
        ensures { StepsTo (Ok result) (FromEntries (document_of self.old) Item.SharedFlow)
            (spot_of self.new) }
    {
        if self.version != 2 {
            return false;
        }
        self.place = Place::EntryFlow;
        self.units = Vec::new(alloc);
        true
    }

    /// A shared walk, which stands there in version 2.
    fn begin_walk(&mut self, alloc: Global) -> bool
        ensures { StepsTo (Ok result) (FromEntries (document_of self.old) Item.SharedStuck)
            (spot_of self.new) }
    {
        if self.version != 2 {
            return false;
        }
        self.place = Place::EntryWalk;
        self.edges = Vec::new(alloc);
        true
    }

    /// Another edge of a circulation, or what may follow it.
    pub(crate) fn in_entry_flow(&mut self, alloc: Global, item: &Item) -> Result<bool, AllocError>
        ensures { StepsTo result
            (FromEntryFlow (document_of self.old) self.old.units.items item.now) (spot_of self.new) }
    {
        let Item::Units(name, units) = item else {
            let edges = mem::replace(&mut self.units, Vec::new(alloc));
            self.shared.push(Shared::Flow(Listed::from_vec(edges)))?;
            return self.in_entries(alloc, item);
        };
        let Some(edge) = next_edge(&self.state.plan, self.units.as_slice(), *name) else {
            return Ok(false);
        };
        self.place = Place::EntryFlow;
        self.units.push((edge, *units))?;
        Ok(true)
    }

    /// Another edge of a walk, or what may follow it.
    pub(crate) fn in_entry_walk(&mut self, alloc: Global, item: &Item) -> Result<bool, AllocError>
        ensures { StepsTo result
            (FromEntryWalk (document_of self.old) self.old.edges.items item.now) (spot_of self.new) }
    {
        let Item::Edge(name) = item else {
            let edges = mem::replace(&mut self.edges, Vec::new(alloc));
            self.shared.push(Shared::Stuck(Listed::from_vec(edges)))?;
            return self.in_entries(alloc, item);
        };
        let Some(edge) = find_edge(&self.state.plan, *name) else {
            return Ok(false);
        };
        self.place = Place::EntryWalk;
        self.edges.push(edge)?;
        Ok(true)
    }
}
