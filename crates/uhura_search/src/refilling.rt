//! The table of a plan that changed, filled anew by its items.
ghost use Rattle.std.specs.Prelude.{◌≡◌, ◌<◌, IsFalse, None, IfSome, if◌then◌else◌, false, length, replicate};
ghost use Rattle.uhura_plan.specs.declared.key.Item.TheVariants as item;
ghost use Rattle.uhura_plan.specs.declared.limits.TheConstants.{EVENTS, REQUIREMENTS};
ghost use Rattle.uhura_plan.specs.Sound.{IsSoundUncertain};
ghost use Rattle.uhura_net.specs.Place.{IsPlacedItem, HasPlace, place_number};
ghost use Rattle.uhura_net.specs.Table.{IsEdgeFor};
ghost use Rattle.uhura_worst.specs.Edges.{item_of, duration_edge, requirement_edge};
ghost use Rattle.uhura_worst.specs.Filled.{IsFilledBy, Puts, PutsItem};
ghost use Rattle.uhura_worst.specs.Nodes.{HasNodes};
ghost use Rattle.uhura_search.specs.Moving.{AreListed};
ghost use Rattle.uhura_search.specs.Refilled.{tables_without, is_marked_slot, IsGone, HasNoneGone, AreSlotsOf, IsRefilledBy, AreSameBut, ListsChanges};

use crate::places::Places;
use uhura_net::{Edge, EdgeTable, Place, key_of, place_of};
use uhura_plan::{EdgeKey, Item, Plan, REQUIREMENTS, Requirement, Side, SideKey, Uncertain};
use uhura_veto::Vetoes;
use uhura_worst::Tables;

/// Makes each place hold the edge of its key under these vetoes, or none where its slot is marked, and lists the
/// places at which the table changes. The places are those that had an edge; it takes time in these and in the size
/// of the plan alone.
pub(crate) fn refill(
    table: &mut EdgeTable,
    places: &[u32],
    changed: &mut Places,
    plan: &Plan,
    vetoes: &Vetoes,
    marks: &[bool],
)
    requires listed { AreListed places.now table.old }
    requires marks { length marks.now ≡ REQUIREMENTS }
    ensures filled { IsFilledBy (tables_without marks.now vetoes.now) plan.now table.new }
    ensures changed { AreSameBut table.old table.new changed.new }
{
    changed.clear();
    empty_gone(table, places, changed, plan);
    refill_requirements(table, changed, plan, vetoes, marks);
    refill_durations(table, changed, plan, vetoes, marks);
}

/// Empties the places of items that the plan hasn't.
fn empty_gone(table: &mut EdgeTable, places: &[u32], changed: &mut Places, plan: &Plan)
    requires { AreListed places.now table.old }
    ensures gone { HasNoneGone plan.now table.new }
    ensures changed { ListsChanges table.old table.new changed.old changed.new }
{
    let mut slots = [false; REQUIREMENTS as usize];
    mark_slots(&mut slots, plan);
    for number in places {
        let key = key_of(Place(*number));
        if !is_item(plan, &slots, key) {
            refill_at(table, changed, key, None);
        }
    }
}

/// Marks the slots of the plan's requirements.
fn mark_slots(slots: &mut [bool], plan: &Plan)
    requires { slots.old ≡ replicate REQUIREMENTS false }
    ensures { AreSlotsOf plan.now slots.new }
{
    for position in 0..plan.requirements() {
        slots[plan.requirement(position).unwrap().slot as usize] = true;
    }
}

/// Whether the plan has the item of an edge, by the marks of the slots.
fn is_item(plan: &Plan, slots: &[bool], key: EdgeKey) -> bool
    requires slots { AreSlotsOf plan.now slots.now }
    requires length { length slots.now ≡ REQUIREMENTS }
    requires key { HasPlace key }
    ensures { IsGone plan.now (item_of key) → IsFalse result }
{
    let item = match key {
        EdgeKey::Loose(side) | EdgeKey::Firm(side) | EdgeKey::Steep(side) => side.item,
        EdgeKey::Order(duration) => Item::Uncertain(duration),
    };
    match item {
        Item::Requirement(slot) => slots[slot as usize],
        Item::Uncertain(duration) => duration < plan.uncertains(),
    }
}

/// Puts the edges of all requirements.
fn refill_requirements(
    table: &mut EdgeTable,
    changed: &mut Places,
    plan: &Plan,
    vetoes: &Vetoes,
    marks: &[bool],
)
    requires gone { HasNoneGone plan.now table.old }
    requires marks { length marks.now ≡ REQUIREMENTS }
    ensures filled { IsRefilledBy (tables_without marks.now vetoes.now) plan.now
        (length plan.now.requirements) 0 table.new }
    ensures changed { ListsChanges table.old table.new changed.old changed.new }
{
    for position in 0..plan.requirements() {
        let requirement = plan.requirement(position).unwrap();
        let marked = is_marked(marks, requirement.slot);
        refill_requirement(table, changed, vetoes, marked, requirement);
    }
}

/// Whether a slot is marked.
fn is_marked(marks: &[bool], slot: u32) -> bool
    requires { slot < length marks.now }
    ensures { result ≡ is_marked_slot marks.now slot }
{
    marks[slot as usize]
}

/// Puts the edges of all durations.
fn refill_durations(
    table: &mut EdgeTable,
    changed: &mut Places,
    plan: &Plan,
    vetoes: &Vetoes,
    marks: &[bool],
)
    requires { IsRefilledBy (tables_without marks.now vetoes.now) plan.now
        (length plan.now.requirements) 0 table.old }
    ensures filled { IsFilledBy (tables_without marks.now vetoes.now) plan.now table.new }
    ensures changed { ListsChanges table.old table.new changed.old changed.new }
{
    for duration in 0..plan.uncertains() {
        let uncertain = plan.uncertain(duration).unwrap();
        refill_duration(table, changed, vetoes, duration, uncertain);
    }
}

/// Puts the edges of a requirement, or none where its slot is marked.
fn refill_requirement(
    table: &mut EdgeTable,
    changed: &mut Places,
    vetoes: &Vetoes,
    marked: bool,
    requirement: &Requirement,
)
    requires slot { IsPlacedItem (item.Requirement requirement.now.slot) }
    requires nodes { HasNodes requirement.now }
    ensures item { PutsItem (item.Requirement requirement.now.slot)
        (λ key. if marked then None else requirement_edge vetoes.now requirement.now key)
        table.old table.new }
    ensures changed { ListsChanges table.old table.new changed.old changed.new }
{
    let item = Item::Requirement(requirement.slot);
    let lower = SideKey {
        item,
        side: Side::Lower,
    };
    let upper = SideKey {
        item,
        side: Side::Upper,
    };
    let lower_loose = EdgeKey::Loose(lower);
    let lower_firm = EdgeKey::Firm(lower);
    let lower_steep = EdgeKey::Steep(lower);
    let upper_loose = EdgeKey::Loose(upper);
    let upper_firm = EdgeKey::Firm(upper);
    let upper_steep = EdgeKey::Steep(upper);
    refill_requirement_edge(table, changed, vetoes, marked, requirement, lower_loose);
    refill_requirement_edge(table, changed, vetoes, marked, requirement, lower_firm);
    refill_requirement_edge(table, changed, vetoes, marked, requirement, lower_steep);
    refill_requirement_edge(table, changed, vetoes, marked, requirement, upper_loose);
    refill_requirement_edge(table, changed, vetoes, marked, requirement, upper_firm);
    refill_requirement_edge(table, changed, vetoes, marked, requirement, upper_steep);
}

/// Puts one of the edges of a requirement, or none where its slot is marked.
fn refill_requirement_edge(
    table: &mut EdgeTable,
    changed: &mut Places,
    vetoes: &Vetoes,
    marked: bool,
    requirement: &Requirement,
    key: EdgeKey,
)
    requires nodes { HasNodes requirement.now }
    requires placed { HasPlace key }
    ensures edge { Puts key
        (if marked then None else requirement_edge vetoes.now requirement.now key)
        table.old table.new }
    ensures changed { ListsChanges table.old table.new changed.old changed.new }
{
    let edge = if marked {
        None
    } else {
        vetoes.requirement_edge(requirement, key)
    };
    refill_at(table, changed, key, edge);
}

/// Puts the edges of the duration in this place.
fn refill_duration(
    table: &mut EdgeTable,
    changed: &mut Places,
    vetoes: &Vetoes,
    duration: u32,
    uncertain: &Uncertain,
)
    requires place { IsPlacedItem (item.Uncertain duration) }
    requires sound { IsSoundUncertain EVENTS uncertain.now }
    ensures item { PutsItem (item.Uncertain duration)
        (duration_edge vetoes.now duration uncertain.now) table.old table.new }
    ensures changed { ListsChanges table.old table.new changed.old changed.new }
{
    let item = Item::Uncertain(duration);
    let lower = SideKey {
        item,
        side: Side::Lower,
    };
    let upper = SideKey {
        item,
        side: Side::Upper,
    };
    let lower_loose = EdgeKey::Loose(lower);
    let lower_firm = EdgeKey::Firm(lower);
    let lower_steep = EdgeKey::Steep(lower);
    let upper_loose = EdgeKey::Loose(upper);
    let upper_firm = EdgeKey::Firm(upper);
    let upper_steep = EdgeKey::Steep(upper);
    let order = EdgeKey::Order(duration);
    refill_duration_edge(table, changed, vetoes, duration, uncertain, lower_loose);
    refill_duration_edge(table, changed, vetoes, duration, uncertain, lower_firm);
    refill_duration_edge(table, changed, vetoes, duration, uncertain, lower_steep);
    refill_duration_edge(table, changed, vetoes, duration, uncertain, upper_loose);
    refill_duration_edge(table, changed, vetoes, duration, uncertain, upper_firm);
    refill_duration_edge(table, changed, vetoes, duration, uncertain, upper_steep);
    refill_duration_edge(table, changed, vetoes, duration, uncertain, order);
}

/// Puts one of the edges of the duration in this place.
fn refill_duration_edge(
    table: &mut EdgeTable,
    changed: &mut Places,
    vetoes: &Vetoes,
    duration: u32,
    uncertain: &Uncertain,
    key: EdgeKey,
)
    requires place { IsPlacedItem (item.Uncertain duration) }
    requires sound { IsSoundUncertain EVENTS uncertain.now }
    requires placed { HasPlace key }
    ensures edge { Puts key (duration_edge vetoes.now duration uncertain.now key) table.old table.new }
    ensures changed { ListsChanges table.old table.new changed.old changed.new }
{
    let edge = vetoes.duration_edge(duration, uncertain, key);
    refill_at(table, changed, key, edge);
}

/// Puts an edge, or none, at the place of its key, and lists the place where it had another.
fn refill_at(table: &mut EdgeTable, changed: &mut Places, key: EdgeKey, edge: Option<Edge>)
    requires placed { HasPlace key }
    requires fits { IfSome edge (IsEdgeFor (place_number key)) }
    ensures edge { Puts key edge table.old table.new }
    ensures changed { ListsChanges table.old table.new changed.old changed.new }
{
    let place = place_of(key);
    if table.get(place) == edge {
        return;
    }
    table.put(place, edge);
    changed.set(place, true);
}
