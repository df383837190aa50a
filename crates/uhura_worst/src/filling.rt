//! The table of the edges of a plan.
ghost use Rattle.std.specs.Prelude.{◌≡◌, ℕ, ◌<◌, length, None, IfSome, slice_index_or};
ghost use Rattle.uhura_plan.specs.declared.key.Item.TheVariants as item;
ghost use Rattle.uhura_plan.specs.Sound.{IsSoundUncertain};
ghost use Rattle.uhura_net.specs.Place.{IsPlacedItem, place_number, HasPlace};
ghost use Rattle.uhura_net.specs.Table.{IsEdgeFor};
ghost use Rattle.uhura_worst.specs.declared.node.TheConstants.{FIRST_OF_ENDS};
ghost use Rattle.uhura_worst.specs.Nodes.{HasNodes};
ghost use Rattle.uhura_worst.specs.Filled.{IsFilledBy, IsTableOf, first_items, Puts, PutsItem};

use crate::Tables;
use uhura_net::{Edge, EdgeTable, PLACES, Place, place_of};
use uhura_plan::{EdgeKey, Item, Plan, Requirement, Side, SideKey, Uncertain};
use uhura_veto::Vetoes;

/// Makes each place hold the edge of its key under these vetoes.
pub fn fill(table: &mut EdgeTable, plan: &Plan, vetoes: &Vetoes)
    ensures { IsTableOf (record { plan = plan.now; vetoes = vetoes.now }) table.new }
{
    fill_by(table, plan, vetoes);
}

/// Makes each place hold the edge that its key has in these tables. Besides one clearing of the table it takes time
/// in the size of the plan alone.
pub fn fill_by<T: Tables>(table: &mut EdgeTable, plan: &Plan, tables: &T)
    ensures { IsFilledBy (T.tables tables.now) plan.now table.new }
{
    clear(table);
    put_requirements(table, plan, tables);
    put_durations(table, plan, tables);
}

/// Empties each place. Most are empty as a rule, and a look costs less than a write.
fn clear(table: &mut EdgeTable)
    ensures { (place : ℕ) → place < PLACES → slice_index_or table.new place None ≡ None }
{
    for place in 0..PLACES as u32 {
        if table.get(Place(place)).is_some() {
            table.put(Place(place), None);
        }
    }
}

/// Puts the edges of all requirements into an empty table.
fn put_requirements<T: Tables>(table: &mut EdgeTable, plan: &Plan, tables: &T)
    requires { (place : ℕ) → place < PLACES → slice_index_or table.old place None ≡ None }
    ensures { let requirements = first_items plan.now (length plan.now.requirements) 0 in
        IsFilledBy (T.tables tables.now) requirements table.new }
{
    for position in 0..plan.requirements() {
        put_requirement(table, tables, plan.requirement(position).unwrap());
    }
}

/// Puts the edges of all durations into a table of those of the requirements.
fn put_durations<T: Tables>(table: &mut EdgeTable, plan: &Plan, tables: &T)
    requires { let requirements = first_items plan.now (length plan.now.requirements) 0 in
        IsFilledBy (T.tables tables.now) requirements table.old }
    ensures { IsFilledBy (T.tables tables.now) plan.now table.new }
{
    for duration in 0..plan.uncertains() {
        put_duration(table, tables, duration, plan.uncertain(duration).unwrap());
    }
}

/// Puts the edges of a requirement.
fn put_requirement<T: Tables>(table: &mut EdgeTable, tables: &T, requirement: &Requirement)
    requires slot { IsPlacedItem (item.Requirement requirement.now.slot) }
    requires nodes { HasNodes requirement.now }
    ensures { let edges = (T.tables tables.now).of_requirement requirement.now in
        PutsItem (item.Requirement requirement.now.slot) edges table.old table.new }
{
    let item = Item::Requirement(requirement.slot);
    let lower = SideKey {
        item,
        side: Side::Lower,
    };
    let upper = SideKey {
        item,
        side: Side::Upper,
    };
    put_requirement_edge(table, tables, requirement, EdgeKey::Loose(lower));
    put_requirement_edge(table, tables, requirement, EdgeKey::Firm(lower));
    put_requirement_edge(table, tables, requirement, EdgeKey::Steep(lower));
    put_requirement_edge(table, tables, requirement, EdgeKey::Loose(upper));
    put_requirement_edge(table, tables, requirement, EdgeKey::Firm(upper));
    put_requirement_edge(table, tables, requirement, EdgeKey::Steep(upper));
}

/// Puts one of the edges of a requirement.
fn put_requirement_edge<T: Tables>(
    table: &mut EdgeTable,
    tables: &T,
    requirement: &Requirement,
    key: EdgeKey,
)
    requires nodes { HasNodes requirement.now }
    requires placed { HasPlace key }
    ensures { let edge = (T.tables tables.now).of_requirement requirement.now key in
        Puts key edge table.old table.new }
{
    let edge = tables.requirement_edge(requirement, key);
    put(table, key, edge);
}

/// Puts the edges of the duration in this place.
fn put_duration<T: Tables>(table: &mut EdgeTable, tables: &T, duration: u32, uncertain: &Uncertain)
    requires place { IsPlacedItem (item.Uncertain duration) }
    requires sound { IsSoundUncertain FIRST_OF_ENDS uncertain.now }
    ensures { let edges = (T.tables tables.now).of_duration duration uncertain.now in
        PutsItem (item.Uncertain duration) edges table.old table.new }
{
    let item = Item::Uncertain(duration);
    let lower = SideKey {
        item,
        side: Side::Lower,
    };
    let upper = SideKey {
        item,
        side: Side::Upper,
    };
    put_duration_edge(table, tables, duration, uncertain, EdgeKey::Loose(lower));
    put_duration_edge(table, tables, duration, uncertain, EdgeKey::Firm(lower));
    put_duration_edge(table, tables, duration, uncertain, EdgeKey::Steep(lower));
    put_duration_edge(table, tables, duration, uncertain, EdgeKey::Loose(upper));
    put_duration_edge(table, tables, duration, uncertain, EdgeKey::Firm(upper));
    put_duration_edge(table, tables, duration, uncertain, EdgeKey::Steep(upper));
    put_duration_edge(table, tables, duration, uncertain, EdgeKey::Order(duration));
}

/// Puts one of the edges of the duration in this place.
fn put_duration_edge<T: Tables>(
    table: &mut EdgeTable,
    tables: &T,
    duration: u32,
    uncertain: &Uncertain,
    key: EdgeKey,
)
    requires place { IsPlacedItem (item.Uncertain duration) }
    requires sound { IsSoundUncertain FIRST_OF_ENDS uncertain.now }
    requires placed { HasPlace key }
    ensures { let edge = (T.tables tables.now).of_duration duration uncertain.now key in
        Puts key edge table.old table.new }
{
    let edge = tables.duration_edge(duration, uncertain, key);
    put(table, key, edge);
}

/// Puts an edge, or none, at the place of its key.
fn put(table: &mut EdgeTable, key: EdgeKey, edge: Option<Edge>)
    requires placed { HasPlace key }
    requires fits { IfSome edge (IsEdgeFor (place_number key)) }
    ensures { Puts key edge table.old table.new }
{
    table.put(place_of(key), edge);
}
