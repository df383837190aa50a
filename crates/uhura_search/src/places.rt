//! Lists of places in their order.
ghost use Rattle.std.specs.Prelude.{◌≡◌, ◌<◌, ◌≤◌, [], IfOk};
ghost use Rattle.std.specs.Vec.{vec_capacity};
ghost use Rattle.uhura_net.specs.declared.place.TheConstants.{PLACES};
ghost use Rattle.uhura_search.specs.Moving.{AreListed};
ghost use Rattle.uhura_search.specs.Places.{ArePlaces, SetsPlace};

use std::alloc::{AllocError, Global};
use std::marker::Model;
use uhura_net::{EdgeTable, PLACES, Place};

/// Some of the places, each once, by rising numbers. There is room for all of them, so that only `new` takes memory.
#[derive(Drop)]
pub(crate) struct Places {
    listed: Vec<u32>,
}

impl Model for Places {
    ghost use Rattle.std.specs.Prelude.{ℕ, List};

    ghost Value = { List ℕ };

    ghost use Rattle.std.specs.Prelude.{◌≤◌};
    ghost use Rattle.std.specs.Vec.{vec_capacity};
    ghost use Rattle.uhura_net.specs.declared.place.TheConstants.{PLACES};
    ghost use Rattle.uhura_search.specs.Places.{ArePlaces};

    ghost view = { λ places. places.listed.items };

    ghost invariant = { λ places.
        ArePlaces places.listed.items × (PLACES ≤ vec_capacity places.listed) };
}

impl Places {
    /// None of the places.
    pub(crate) fn new(alloc: Global) -> Result<Places, AllocError>
        ensures { IfOk result (λ places. places ≡ []) }
    {
        Ok(Places {
            listed: Vec::with_capacity(alloc, PLACES)?,
        })
    }

    /// The places.
    pub(crate) fn as_slice(&self) -> &[u32]
        ensures listed { result.now ≡ self.now }
        ensures sound { ArePlaces self.now }
    {
        self.listed.as_slice()
    }

    /// Lists none of them any more.
    pub(crate) fn clear(&mut self)
        ensures { self.new ≡ [] }
    {
        self.listed.clear();
    }

    /// Lists the places that have an edge in the table, in one pass over all of them.
    pub(crate) fn list(&mut self, table: &EdgeTable)
        ensures { AreListed self.new table.now }
    {
        list_in(&mut self.listed, table);
    }

    /// Lists a place, or lists it no more.
    pub(crate) fn set(&mut self, place: Place, there: bool)
        requires { place.0 < PLACES }
        ensures { SetsPlace self.old self.new place.0 there }
    {
        set_in(&mut self.listed, place.0, there);
    }
}

/// Lists the places that have an edge in the table, each behind those before it.
fn list_in(listed: &mut Vec<u32>, table: &EdgeTable)
    requires room { PLACES ≤ vec_capacity listed.old }
    ensures listed { AreListed listed.new.items table.now }
    ensures room { PLACES ≤ vec_capacity listed.new }
{
    listed.clear();
    for number in 0..PLACES as u32 {
        if table.get(Place(number)).is_some() {
            listed.push_reserved(number);
        }
    }
}

/// Puts a place into a list in its order, or takes it out.
fn set_in(listed: &mut Vec<u32>, place: u32, there: bool)
    requires place { place < PLACES }
    requires places { ArePlaces listed.old.items }
    requires room { PLACES ≤ vec_capacity listed.old }
    ensures set { SetsPlace listed.old.items listed.new.items place there }
    ensures places { ArePlaces listed.new.items }
    ensures room { PLACES ≤ vec_capacity listed.new }
{
    match listed.as_slice().binary_search(&place) {
        Ok(at) => {
            if !there {
                listed.remove(at);
            }
        }
        Err(at) => {
            if there {
                let _ = listed.insert(at, place);
            }
        }
    }
}
