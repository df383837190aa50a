//! What is active after some picks.
ghost use Rattle.std.specs.Prelude.{◌≡◌, All, IsTrue, option_copied};
ghost use Rattle.std.specs.Bool.{Decides};
ghost use Rattle.uhura_plan.specs.Find.{requirement_in};
ghost use Rattle.uhura_worst.specs.Edges.{is_active_item, is_active_edge, item_of};

use uhura_choice::{Prefix, holds};
use uhura_plan::{EdgeKey, Item, Plan, Requirement};

/// Whether the table of an item is active: that of a duration everywhere, and that of a requirement where its guard
/// holds.
pub(crate) fn is_active_item(plan: &Plan, prefix: &Prefix, item: Item) -> bool
    ensures { result ≡ is_active_item plan.now prefix.now item }
{
    match item {
        Item::Requirement(slot) => match requirement_in(plan, slot) {
            Some(requirement) => holds(&requirement.guard, prefix),
            None => false,
        },
        Item::Uncertain(_) => true,
    }
}

/// The requirement in a slot. In a plan that was read from a text it stands in the place of its slot, where it is
/// found at once.
fn requirement_in(plan: &Plan, slot: u32) -> Option<&Requirement>
    ensures { option_copied result ≡ requirement_in plan.now slot }
{
    // By its type the plan has distinct slots.
    let _ = plan.requirements();
    match plan.requirement(slot) {
        Some(requirement) if requirement.slot == slot => Some(requirement),
        _ => plan.requirement_in(slot),
    }
}

/// Whether the table of an edge's item is active.
pub(crate) fn is_active_edge(plan: &Plan, prefix: &Prefix, key: EdgeKey) -> bool
    ensures { result ≡ is_active_edge plan.now prefix.now key }
{
    is_active_item(plan, prefix, item_of(key))
}

/// Whether the tables of all edges' items are active.
pub(crate) fn are_active(plan: &Plan, prefix: &Prefix, keys: &[EdgeKey]) -> bool
    ensures { Decides result
        (All (λ key. IsTrue (is_active_edge plan.now prefix.now key)) keys.now) }
{
    for place in 0..keys.len() {
        if !is_active_edge(plan, prefix, keys[place]) {
            return false;
        }
    }
    true
}

/// The item whose table has the edge.
fn item_of(key: EdgeKey) -> Item
    ensures { result ≡ item_of key }
{
    match key {
        EdgeKey::Loose(key) | EdgeKey::Firm(key) | EdgeKey::Steep(key) => key.item,
        EdgeKey::Order(duration) => Item::Uncertain(duration),
    }
}
