//! The order of branches and their prefixes.
ghost use Rattle.std.specs.Prelude.{◌≡◌};
ghost use Rattle.uhura_choice.specs.Order.{ArePrefixesOfOne, Compares, alternative_at, order_of};

use crate::{Pick, Prefix};
use std::cmp::Ordering;

/// Equal where one prefix begins the other, and otherwise as their first difference, which is always between two
/// alternatives of one choice.
pub fn compare(a: &Prefix, b: &Prefix) -> Ordering
    requires { ArePrefixesOfOne a.now b.now }
    ensures { Compares result a.now b.now }
{
    let (a, b) = (a.entries(), b.entries());
    for place in 0..a.len().min(b.len()) {
        let order = order_at(a, b, place);
        if order.is_ne() {
            return order;
        }
    }
    Ordering::Equal
}

/// How the alternatives picked at this place compare, where both prefixes pick one there.
fn order_at(a: &[Pick], b: &[Pick], place: usize) -> Ordering
    ensures { result ≡ order_of (alternative_at a.now place) (alternative_at b.now place) }
{
    match (alternative_at(a, place), alternative_at(b, place)) {
        (Some(x), Some(y)) => x.cmp(&y),
        _ => Ordering::Equal,
    }
}

/// The alternative picked at this place.
fn alternative_at(picks: &[Pick], place: usize) -> Option<u32>
    ensures { result ≡ alternative_at picks.now place }
{
    match picks.get(place) {
        Some(Pick::Alternative(alternative)) => Some(*alternative),
        _ => None,
    }
}
