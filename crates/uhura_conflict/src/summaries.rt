//! What the entries of a store have in common, by groups and by blocks of keys.
ghost use Rattle.std.specs.Prelude.{◌≡◌, ℕ, [], IsSome, OnOk};
ghost use Rattle.slab.specs.Slab.{get};
ghost use Rattle.uhura_conflict.specs.Summaries.{AreSummed, IsReached, CoverNoFewer, TakeIn};

use crate::blocks::{reach, renew, widen};
use crate::entry::Entry;
use crate::summary::Summary;
use slab::Slab;
use std::alloc::{AllocError, Global};

/// How many keys a block has.
pub(crate) const BLOCK: usize = 32;

/// How many blocks a group has.
pub(crate) const BLOCKS: usize = 32;

/// How many keys a group has.
pub(crate) const GROUP: usize = BLOCK * BLOCKS;

/// A summary of each group and of each block of keys that has an entry.
#[derive(Drop)]
pub(crate) struct Summaries {
    pub(crate) groups: Vec<Option<Summary>>,
    pub(crate) blocks: Vec<Option<Summary>>,
}

impl Summaries {
    /// Of no entry.
    pub(crate) fn new(alloc: Global) -> Summaries
        ensures groups { result.groups.items ≡ [] }
        ensures blocks { result.blocks.items ≡ [] }
    {
        Summaries {
            groups: Vec::new(alloc),
            blocks: Vec::new(alloc),
        }
    }

    /// Makes room for an entry under this key.
    pub(crate) fn reach(&mut self, key: usize) -> Result<(), AllocError>
        ensures room { OnOk result (IsReached self.new key) }
        ensures kept { CoverNoFewer self.old self.new }
    {
        reach(&mut self.groups, key / GROUP)?;
        reach(&mut self.blocks, key / BLOCK)
    }

    /// Takes in an entry that comes under this key.
    pub(crate) fn add(&mut self, key: usize, entry: &Entry)
        requires { IsReached self.old key }
        ensures { TakeIn self.old self.new key entry.now }
    {
        widen(&mut self.groups, key / GROUP, entry);
        widen(&mut self.blocks, key / BLOCK, entry);
    }

    /// Makes all summaries anew.
    pub(crate) fn renew(&mut self, entries: &Slab<Entry>)
        requires { (key : ℕ) → IsSome (get entries.now key) → IsReached self.old key }
        ensures { AreSummed self.new entries.now }
    {
        renew(&mut self.groups, GROUP, entries);
        renew(&mut self.blocks, BLOCK, entries);
    }
}
