//! Shared entries, each once. An equal one is found by its content, in a table of hashes.
ghost use Rattle.std.specs.Prelude.{◌≡◌, ◌++◌, All, flat_map, map, IfOk};
ghost use Rattle.uhura_net.specs.Place.{place_number, HasPlace};
ghost use Rattle.uhura_proof.specs.Entries.{numbers_of, content_of, HasPlaces, AreContents, IsPut};

use indexmap::IndexSet;
use std::alloc::{AllocError, Global};
use uhura_cert::Shared;
use uhura_net::place_of;
use uhura_plan::EdgeKey;

/// Puts an entry behind those that are there, where none of them equals it, and answers the place at which it stands.
/// More entries than a place can tell find no memory.
pub(crate) fn put_entry(
    alloc: Global,
    contents: &mut IndexSet<Vec<u64>>,
    entries: &mut Vec<Shared>,
    entry: Shared,
) -> Result<u32, AllocError>
    requires placed { HasPlaces entry }
    requires contents { AreContents (map (λ content. content.items) contents.old.keys)
        entries.old.items }
    ensures contents { IfOk result (λ _.
        AreContents (map (λ content. content.items) contents.new.keys) entries.new.items) }
    ensures put { IfOk result (λ place. IsPut entries.old.items entry place entries.new.items) }
{
    let content = content_of(alloc, &entry)?;
    let (index, is_new) = match contents.insert_full(content) {
        Ok(found) => found,
        Err(_) => return Err(AllocError),
    };
    if is_new {
        entries.push(entry)?;
    }
    match u32::try_from(index) {
        Ok(place) => Ok(place),
        Err(_) => Err(AllocError),
    }
}

/// An entry as numbers, which tell it from each other one.
fn content_of(alloc: Global, entry: &Shared) -> Result<Vec<u64>, AllocError>
    requires { HasPlaces entry.now }
    ensures { IfOk result (λ numbers. numbers.items ≡ content_of entry.now) }
{
    let mut numbers = Vec::new(alloc);
    match entry {
        Shared::Flow(edges) => {
            numbers.push(0)?;
            put_units(&mut numbers, edges.as_slice())?;
        }
        Shared::Stuck(edges) => {
            numbers.push(1)?;
            put_edges(&mut numbers, edges.as_slice())?;
        }
    }
    Ok(numbers)
}

/// Appends the numbers of edges and their units.
fn put_units(numbers: &mut Vec<u64>, edges: &[(EdgeKey, u64)]) -> Result<(), AllocError>
    requires { All (λ e. HasPlace e.0) edges.now }
    ensures { IfOk result (λ _.
        numbers.new.items ≡ numbers.old.items ++ flat_map numbers_of edges.now) }
{
    for (edge, units) in edges {
        numbers.push(u64::from(place_of(*edge).0))?;
        numbers.push(*units)?;
    }
    Ok(())
}

/// Appends the numbers of edges.
fn put_edges(numbers: &mut Vec<u64>, edges: &[EdgeKey]) -> Result<(), AllocError>
    requires { All HasPlace edges.now }
    ensures { IfOk result (λ _.
        numbers.new.items ≡ numbers.old.items ++ map place_number edges.now) }
{
    for edge in edges {
        numbers.push(u64::from(place_of(*edge).0))?;
    }
    Ok(())
}
