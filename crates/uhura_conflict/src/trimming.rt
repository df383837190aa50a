//! Giving up the conflicts that were added first.
ghost use Rattle.std.specs.Prelude.{◌≡◌, ◌<◌, ◌≤◌, ◌⊎◌, ℕ, None, Contains, length, take, drop};
ghost use Rattle.slab.specs.Slab.{get};
ghost use Rattle.uhura_conflict.specs.Entries.{pairs_at, pairs_among};

use crate::entry::Entry;
use slab::Slab;

/// The fewest keys, the first in the order, behind which at most so many pairs are left.
pub(crate) fn given_up(order: &[usize], entries: &Slab<Entry>, most: usize) -> usize
    ensures count { result ≤ length order.now }
    ensures within { pairs_among entries.now (drop result order.now) ≤ most }
    ensures fewest { (fewer : ℕ) → fewer < result →
        most < pairs_among entries.now (drop fewer order.now) }
{
    let mut left = most;
    for place in (0..order.len()).rev() {
        let pairs = pairs_at(entries, order[place]);
        if pairs > left {
            return place + 1;
        }
        left -= pairs;
    }
    0
}

/// How many pairs the entry under a key has.
fn pairs_at(entries: &Slab<Entry>, key: usize) -> usize
    ensures { result ≡ pairs_at entries.now key }
{
    match entries.get(key) {
        Some(entry) => entry.conflict.units().len(),
        None => 0,
    }
}

/// Gives up the first keys of the order, so many of them, with their entries.
pub(crate) fn give_up(order: &mut Vec<usize>, entries: &mut Slab<Entry>, count: usize)
    requires { count ≤ length order.old.items }
    ensures order { order.new.items ≡ drop count order.old.items }
    ensures given_up { (key : ℕ) → Contains (take count order.old.items) key →
        get entries.new key ≡ None }
    ensures others { (key : ℕ) → (Contains (take count order.old.items) key → ⊥) →
        get entries.new key ≡ get entries.old key }
    ensures either { (key : ℕ) → (get entries.new key ≡ None)
        ⊎ (get entries.new key ≡ get entries.old key) }
{
    for place in 0..count {
        entries.try_remove(order[place]);
    }
    let left = order.len() - count;
    order.rotate_left(count);
    order.truncate(left);
}
