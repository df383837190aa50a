//! What was learned and kept.
ghost use Rattle.std.specs.Prelude.{◌≡◌, ℕ, ◌≤◌, ◌<◌, All, find, IfOk, IfErr, OnErr, MatchBool};
ghost use Rattle.uhura_net.specs.declared.place.TheConstants.{PLACES};
ghost use Rattle.uhura_net.specs.Circulation.{edges_of};
ghost use Rattle.uhura_conflict.specs.Learned.{IsValid};
ghost use Rattle.uhura_conflict.specs.Literals.{Applies};
ghost use Rattle.uhura_conflict.specs.Marked.{DifferAmong};
ghost use Rattle.uhura_conflict.specs.Store.{conflict_at, IsStore, empty_store, IsBest, Reaches, ExceedsBest, Adds, Revises, Trims};

use crate::comparing::{mark_among, mark_changed, unmark};
use crate::entry::Entry;
use crate::finding::finds_in;
use crate::looking::best_in;
use crate::revising::{copy_among, copy_table, keep_held, revise_all};
use crate::sought::reaching;
use crate::summaries::Summaries;
use crate::trimming::{give_up, given_up};
use crate::worth::flow_worth;
use crate::{Bound, Conflict};
use slab::Slab;
use std::alloc::{AllocError, Global};
use std::marker::Model;
use uhura_choice::{Branch, Prefix};
use uhura_net::{EdgeTable, PLACES};

/// Conflicts under keys, each valid for the table last taken over, and their keys in the order in which they were
/// added. The marks stand where two tables differ, and only while the one is taken over for the other.
#[derive(Drop)]
pub struct Store {
    entries: Slab<Entry>,
    order: Vec<usize>,
    table: EdgeTable,
    changed: Vec<bool>,
    summaries: Summaries,
}

impl Model for Store {
    ghost use Rattle.uhura_conflict.specs.Store.{Stored};

    ghost Value = { Stored };

    ghost use Rattle.uhura_conflict.specs.Entries.{shown_as, IsHeldStore};
    ghost use Rattle.uhura_conflict.specs.Marked.{IsAtRest};
    ghost use Rattle.uhura_conflict.specs.Summaries.{AreSummed};

    ghost view = { λ s. shown_as s.entries s.order.items s.table };

    ghost invariant = { λ s.
        IsHeldStore s.entries s.order.items s.table × IsAtRest s.table s.changed.items
        × AreSummed s.summaries s.entries };
}

impl Store {
    /// A store without a conflict, for a table without an edge.
    pub fn new(alloc: Global) -> Result<Store, AllocError>
        ensures { IfOk result (λ store. store ≡ empty_store) }
    {
        Ok(Store {
            entries: Slab::new(alloc),
            order: Vec::new(alloc),
            table: EdgeTable::new(alloc)?,
            changed: vec![in alloc; false; PLACES]?,
            summaries: Summaries::new(alloc),
        })
    }

    /// The best that is known of the branches with these picks: the firm cycle of the least key where one applies, or
    /// else the flow of the greatest value above 0, and then of the least key, that does.
    pub fn best(&self, prefix: &Prefix) -> Bound
        ensures best { IsBest self.now prefix.now result }
        ensures sound { IsStore self.now }
    {
        best_in(&self.entries, &self.summaries, prefix.entries())
    }

    /// Whether a firm cycle applies to the branches with these picks, or, where a value is given, a flow that is worth at
    /// least so much.
    pub fn reaches(&self, prefix: &Prefix, least: Option<i128>) -> bool
        ensures { MatchBool result (Reaches self.now prefix.now least)
            (Reaches self.now prefix.now least → ⊥) }
    {
        finds_in(
            &self.entries,
            &self.summaries,
            reaching(least),
            prefix.entries(),
        )
    }

    /// Adds a conflict under a key that has none, and gives it back where there is no memory. It is to exceed the
    /// best that is known of the branch.
    pub fn add(&mut self, conflict: Conflict, branch: &Branch) -> Result<usize, Conflict>
        requires valid { IsValid (edges_of self.old.table) conflict }
        requires applies { Applies branch.now conflict }
        requires exceeds { ExceedsBest self.old branch.now conflict }
        ensures added { IfOk result (λ key. Adds self.old self.new key conflict) }
        ensures err { OnErr result (self.new ≡ self.old) }
        ensures given_back { IfErr result (λ back. back ≡ conflict) }
        ensures sound { IsStore self.new }
    {
        if self.order.reserve(1).is_err() || self.entries.reserve(1).is_err() {
            return Err(conflict);
        }
        let key = self.entries.vacant_key();
        if self.summaries.reach(key).is_err() {
            return Err(conflict);
        }
        let value = flow_worth(&conflict, &self.table);
        let entry = Entry { conflict, value };
        self.summaries.add(key, &entry);
        self.entries.insert_reserved(entry);
        self.order.push_reserved(key);
        Ok(key)
    }

    /// Another owner of the conflict under the key, and none exactly where the key has no conflict.
    pub fn share(&self, key: usize) -> Result<Option<Conflict>, AllocError>
        ensures conflict { IfOk result (λ shared. shared ≡ conflict_at self.now key) }
        ensures sound { IsStore self.now }
    {
        match self.entries.get(key) {
            Some(entry) => Ok(Some(entry.conflict.share()?)),
            None => Ok(None),
        }
    }

    /// Takes over a table. It gives up the conflicts of which an edge is gone or can't carry the units any more, and
    /// the firm cycles whose bounds no longer sum below 0, and keeps all others.
    pub fn revise(&mut self, table: &EdgeTable)
        ensures revised { Revises self.old self.new table.now }
        ensures sound { IsStore self.new }
    {
        if !mark_changed(&self.table, table, &mut self.changed) {
            return;
        }
        revise_all(&mut self.entries, &self.table, table, &self.changed);
        self.summaries.renew(&self.entries);
        keep_held(&mut self.order, &self.entries);
        copy_table(&mut self.table, table);
        self.changed.fill(false);
    }

    /// Takes over, as `revise` does, a table that differs from the last one at these places at most. Besides them it
    /// looks at what was learned alone.
    pub fn revise_at(&mut self, table: &EdgeTable, places: &[u32])
        requires inside { All (λ place. place < PLACES) places.now }
        requires differ { DifferAmong self.old.table table.now places.now }
        ensures revised { Revises self.old self.new table.now }
        ensures sound { IsStore self.new }
    {
        if !mark_among(&self.table, table, places, &mut self.changed) {
            return;
        }
        revise_all(&mut self.entries, &self.table, table, &self.changed);
        self.summaries.renew(&self.entries);
        keep_held(&mut self.order, &self.entries);
        copy_among(&mut self.table, table, places);
        unmark(&mut self.changed, places);
    }

    /// Gives up the fewest conflicts, the earliest added first, that leave at most so many pairs of place and units.
    pub fn trim(&mut self, most: usize)
        ensures trimmed { (count : ℕ) × Trims self.old self.new most count }
        ensures sound { IsStore self.new }
    {
        let count = given_up(&self.order, &self.entries, most);
        if count == 0 {
            return;
        }
        give_up(&mut self.order, &mut self.entries, count);
        self.summaries.renew(&self.entries);
    }
}
