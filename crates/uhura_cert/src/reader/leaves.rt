//! The leaves of a document, as they are read.
ghost use Rattle.std.specs.Prelude.{◌≡◌, true, false, Ok, OnOk};
ghost use Rattle.uhura_cert.specs.Machine.{leaves, leaf_of, with_leaf, HasReason, FromLeaves, FromLeafHead, FromLeafFlow, FromLeafWalk};
ghost use Rattle.uhura_cert.specs.Reading.{document_of, spot_of, StepsTo};

use super::Reader;
use crate::named::find_edge;
use crate::next::next_edge;
use crate::place::Place;
use crate::prefix::find_prefix;
use crate::{Leaf, Listed, Reason};
use std::alloc::{AllocError, Global};
use std::mem;
use uhura_item::{Item, Picks};
use uhura_plan::Name;

impl Reader {
    /// Another leaf, or the end.
    pub(crate) fn in_leaves(&mut self, alloc: Global, item: &Item) -> Result<bool, AllocError>
        ensures { StepsTo result (FromLeaves (document_of self.old) item.now) (spot_of self.new) }
    {
        match item {
            Item::Leaf(names) => self.begin_leaf(alloc, names),
            Item::End => {
                self.place = Place::Done;
                Ok(true)
            }
            _ => Ok(false),
        }
    }

    /// Whether a reason can be given for a leaf.
    fn has_reason(&self) -> bool
        ensures yes { result ≡ true → HasReason (document_of self.now) }
        ensures no { result ≡ false → HasReason (document_of self.now) → ⊥ }
    {
        self.version != 2 || self.state.vetoes.count() > 0 || !self.shared.is_empty()
    }

    /// The first line of a leaf.
    fn begin_leaf(&mut self, alloc: Global, names: &Picks) -> Result<bool, AllocError>
        ensures { StepsTo result (FromLeaves (document_of self.old) (Item.Leaf names.now))
            (spot_of self.new) }
    {
        if !self.has_reason() {
            return Ok(false);
        }
        let Some(prefix) = find_prefix(alloc, &self.state.plan, names.as_slice())? else {
            return Ok(false);
        };
        self.place = Place::LeafHead;
        self.prefix = prefix;
        Ok(true)
    }

    /// The reason of a leaf, or what begins it.
    pub(crate) fn in_leaf_head(&mut self, alloc: Global, item: &Item) -> Result<bool, AllocError>
        ensures { StepsTo result
            (FromLeafHead (document_of self.old) self.old.prefix.items item.now)
            (spot_of self.new) }
    {
        match item {
            Item::Denied(name) => self.end_denied(alloc, *name),
            Item::Flow => Ok(self.begin_leaf_flow(alloc)),
            Item::Stuck => Ok(self.begin_leaf_walk(alloc)),
            Item::Use(entry) => self.end_use(alloc, *entry),
            _ => Ok(false),
        }
    }

    /// The circulation of a leaf, which stands there in version 1.
    fn begin_leaf_flow(&mut self, alloc: Global) -> bool
        ensures { StepsTo (Ok result)
            (FromLeafHead (document_of self.old) self.old.prefix.items Item.Flow)
            (spot_of self.new) }
    {
        if self.version != 1 {
            return false;
        }
        self.place = Place::LeafFlow;
        self.units = Vec::new(alloc);
        true
    }

    /// The walk of a leaf, which stands there in version 1.
    fn begin_leaf_walk(&mut self, alloc: Global) -> bool
        ensures { StepsTo (Ok result)
            (FromLeafHead (document_of self.old) self.old.prefix.items Item.Stuck)
            (spot_of self.new) }
    {
        if self.version != 1 {
            return false;
        }
        self.place = Place::LeafWalk;
        self.edges = Vec::new(alloc);
        true
    }

    /// A leaf that a veto rules out.
    fn end_denied(&mut self, alloc: Global, name: Name) -> Result<bool, AllocError>
        ensures { StepsTo result
            (FromLeafHead (document_of self.old) self.old.prefix.items (Item.Denied name))
            (spot_of self.new) }
    {
        let Some(veto) = self.state.vetoes.find(name) else {
            return Ok(false);
        };
        self.end_leaf(alloc, Reason::Denied(veto))?;
        Ok(true)
    }

    /// A leaf that a shared entry shows, in version 2.
    fn end_use(&mut self, alloc: Global, entry: u32) -> Result<bool, AllocError>
        ensures { StepsTo result
            (FromLeafHead (document_of self.old) self.old.prefix.items (Item.Use entry))
            (spot_of self.new) }
    {
        if self.version != 2 || entry as usize >= self.shared.len() {
            return Ok(false);
        }
        self.end_leaf(alloc, Reason::Entry(entry))?;
        Ok(true)
    }

    /// The leaf with this reason stands behind the others.
    fn end_leaf(&mut self, alloc: Global, reason: Reason) -> Result<(), AllocError>
        ensures document { OnOk result (document_of self.new ≡
            with_leaf (document_of self.old) (leaf_of self.old.prefix.items reason)) }
        ensures spot { OnOk result (spot_of self.new ≡ leaves (document_of self.new)) }
    {
        self.place = Place::Leaves;
        let prefix = Listed::from_vec(mem::replace(&mut self.prefix, Vec::new(alloc)));
        self.leaves.push(Leaf { prefix, reason })?;
        Ok(())
    }

    /// Another edge of a leaf's circulation, or what may follow it.
    pub(crate) fn in_leaf_flow(&mut self, alloc: Global, item: &Item) -> Result<bool, AllocError>
        ensures { StepsTo result
            (FromLeafFlow (document_of self.old) self.old.prefix.items self.old.units.items
            item.now)
            (spot_of self.new) }
    {
        let Item::Units(name, units) = item else {
            let edges = mem::replace(&mut self.units, Vec::new(alloc));
            self.end_leaf(alloc, Reason::Flow(Listed::from_vec(edges)))?;
            return self.in_leaves(alloc, item);
        };
        let Some(edge) = next_edge(&self.state.plan, self.units.as_slice(), *name) else {
            return Ok(false);
        };
        self.place = Place::LeafFlow;
        self.units.push((edge, *units))?;
        Ok(true)
    }

    /// Another edge of a leaf's walk, or what may follow it.
    pub(crate) fn in_leaf_walk(&mut self, alloc: Global, item: &Item) -> Result<bool, AllocError>
        ensures { StepsTo result
            (FromLeafWalk (document_of self.old) self.old.prefix.items self.old.edges.items
            item.now)
            (spot_of self.new) }
    {
        let Item::Edge(name) = item else {
            let edges = mem::replace(&mut self.edges, Vec::new(alloc));
            self.end_leaf(alloc, Reason::Stuck(Listed::from_vec(edges)))?;
            return self.in_leaves(alloc, item);
        };
        let Some(edge) = find_edge(&self.state.plan, *name) else {
            return Ok(false);
        };
        self.place = Place::LeafWalk;
        self.edges.push(edge)?;
        Ok(true)
    }
}
