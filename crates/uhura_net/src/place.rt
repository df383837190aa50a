//! Every edge that a plan can have stands at a place of its own. A requirement in slot `s` has the places from `4 *
//! s` on, and duration `d` those from `8192 + 5 * d` on, each in the order lower loose, lower firm, upper loose,
//! upper firm; a duration has its order edge last. Behind all of these a requirement has its lower and upper steep
//! edge from `9472 + 2 * s` on, and a duration from `13568 + 2 * d` on.
ghost use Rattle.std.specs.Prelude.{◌≡◌, ◌+◌, ◌*◌, ◌<◌};
ghost use Rattle.uhura_net.specs.Place.{first_place, first_steep_place, loose_row, firm_row, steep_row, place_number, IsPlacedItem, HasPlace};

use uhura_plan::{EdgeKey, Item, REQUIREMENTS, Side, SideKey, UNCERTAINS};

/// The first place of a duration, behind the slots with four places each.
const FIRST_OF_DURATIONS: u32 = 4 * REQUIREMENTS;

/// The first place of a steep edge, behind the durations with five places each.
const FIRST_STEEP: u32 = FIRST_OF_DURATIONS + 5 * UNCERTAINS;

/// The number of places.
pub const PLACES: usize = (FIRST_STEEP + 2 * REQUIREMENTS + 2 * UNCERTAINS) as usize;

/// The number of a place, below `PLACES`.
#[derive(Clone, Copy, Debug, PartialEq, Eq)]
pub struct Place(pub u32);

/// The place of an edge.
pub fn place_of(key: EdgeKey) -> Place
    requires { HasPlace key }
    ensures place { result.0 ≡ place_number key }
    ensures below { result.0 < PLACES }
{
    match key {
        EdgeKey::Loose(side) => Place(first_place(side.item) + loose_row(side.side)),
        EdgeKey::Firm(side) => Place(first_place(side.item) + loose_row(side.side) + 1),
        EdgeKey::Order(duration) => Place(first_place(Item::Uncertain(duration)) + 4),
        EdgeKey::Steep(side) => Place(first_steep_place(side.item) + steep_row(side.side)),
    }
}

/// The edge that stands at a place.
pub fn key_of(place: Place) -> EdgeKey
    requires { place.0 < PLACES }
    ensures place { place_number result ≡ place.0 }
    ensures has_place { HasPlace result }
{
    let number = place.0;
    if number < FIRST_OF_DURATIONS {
        key_in_row(Item::Requirement(number / 4), number % 4)
    } else if number < FIRST_STEEP {
        duration_key(number - FIRST_OF_DURATIONS)
    } else {
        steep_key(number - FIRST_STEEP)
    }
}

/// Where the table of an item begins.
fn first_place(item: Item) -> u32
    requires { IsPlacedItem item }
    ensures first { result ≡ first_place item }
    ensures small { result < FIRST_STEEP }
{
    match item {
        Item::Requirement(slot) => 4 * slot,
        Item::Uncertain(duration) => FIRST_OF_DURATIONS + 5 * duration,
    }
}

/// Where the pair of an item's steep edges begins.
fn first_steep_place(item: Item) -> u32
    requires { IsPlacedItem item }
    ensures first { result ≡ first_steep_place item }
    ensures room { result + 1 < PLACES }
{
    match item {
        Item::Requirement(slot) => FIRST_STEEP + 2 * slot,
        Item::Uncertain(duration) => FIRST_STEEP + 2 * REQUIREMENTS + 2 * duration,
    }
}

/// The row of a side's loose edge, behind which its firm edge has its row.
fn loose_row(side: Side) -> u32
    ensures row { result ≡ loose_row side }
    ensures firm { result + 1 ≡ firm_row side }
    ensures small { result < 3 }
{
    match side {
        Side::Lower => 0,
        Side::Upper => 2,
    }
}

/// The row of a side's steep edge.
fn steep_row(side: Side) -> u32
    ensures row { result ≡ steep_row side }
    ensures small { result < 2 }
{
    match side {
        Side::Lower => 0,
        Side::Upper => 1,
    }
}

/// The edge of a duration, by the places in front of it in the tables of durations.
fn duration_key(number: u32) -> EdgeKey
    requires { number < 5 * UNCERTAINS }
    ensures place { place_number result ≡ FIRST_OF_DURATIONS + number }
    ensures has_place { HasPlace result }
{
    let duration = number / 5;
    let row = number % 5;
    if row == 4 {
        EdgeKey::Order(duration)
    } else {
        key_in_row(Item::Uncertain(duration), row)
    }
}

/// The edge of a side in one of the first four rows.
fn key_in_row(item: Item, row: u32) -> EdgeKey
    requires { row < 4 }
    ensures place { place_number result ≡ first_place item + row }
    ensures has_place { IsPlacedItem item → HasPlace result }
{
    let side = if row < 2 { Side::Lower } else { Side::Upper };
    let key = SideKey { item, side };
    if row % 2 == 0 {
        EdgeKey::Loose(key)
    } else {
        EdgeKey::Firm(key)
    }
}

/// The steep edge with so many others in front of it.
fn steep_key(number: u32) -> EdgeKey
    requires { number < 2 * REQUIREMENTS + 2 * UNCERTAINS }
    ensures place { place_number result ≡ FIRST_STEEP + number }
    ensures has_place { HasPlace result }
{
    let pair = number / 2;
    let item = if pair < REQUIREMENTS {
        Item::Requirement(pair)
    } else {
        Item::Uncertain(pair - REQUIREMENTS)
    };
    let side = if number % 2 == 0 {
        Side::Lower
    } else {
        Side::Upper
    };
    EdgeKey::Steep(SideKey { item, side })
}
