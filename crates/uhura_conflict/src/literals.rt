//! The literals of the guards of requirements, at the place of each choice.
ghost use Rattle.std.specs.Prelude.{◌≡◌, ◌<◌, ◌↔◌, IsTrue, None, replicate, slice_get, false, All};
ghost use Rattle.uhura_plan.specs.declared.limits.TheConstants.{CHOICES, REQUIREMENTS};
ghost use Rattle.uhura_choice.specs.Branch.{is_alternative};
ghost use Rattle.uhura_net.specs.declared.place.TheConstants.{PLACES};
ghost use Rattle.uhura_conflict.specs.Learned.{places_in};
ghost use Rattle.uhura_conflict.specs.Literals.{slot_of, slot_of_item, AreActiveTogether, AreLiteralsOf, AreAllPicked};
ghost use Rattle.uhura_conflict.specs.Gathered.{AreUsedSlots, IsSmallLiteral, AreAdded, AreGathered};

use uhura_choice::Pick;
use uhura_net::{Place, key_of};
use uhura_plan::{CHOICES, EdgeKey, Item, Literal, Plan, REQUIREMENTS};

/// The number of slots.
const SLOTS: usize = REQUIREMENTS as usize;

/// The literals of the guards of the requirements at these places. In some branch they are all active, so that no two
/// ask for different alternatives of one choice.
pub(crate) fn literals_of(plan: &Plan, pairs: &[(Place, u64)]) -> [Option<u8>; CHOICES as usize]
    requires inside { All (λ pair. pair.0.0 < PLACES) pairs.now }
    requires together { AreActiveTogether plan.now (places_in pairs.now) }
    ensures { AreLiteralsOf plan.now (places_in pairs.now) result }
{
    let mut used = [false; SLOTS];
    mark_slots(pairs, &mut used);
    let mut literals = [None; CHOICES as usize];
    add_guards(plan, &used, &mut literals);
    literals
}

/// Marks the slots of the requirements at these places.
fn mark_slots(pairs: &[(Place, u64)], used: &mut [bool; SLOTS])
    requires inside { All (λ pair. pair.0.0 < PLACES) pairs.now }
    requires none { used.old ≡ replicate REQUIREMENTS false }
    ensures { AreUsedSlots (places_in pairs.now) used.new }
{
    for (place, _) in pairs {
        if let Some(slot) = slot_of(key_of(*place)) {
            used[slot as usize] = true;
        }
    }
}

/// The slot of the requirement that an edge belongs to.
fn slot_of(key: EdgeKey) -> Option<u32>
    ensures { result ≡ slot_of key }
{
    match key {
        EdgeKey::Loose(side) => slot_of_item(side.item),
        EdgeKey::Firm(side) => slot_of_item(side.item),
        EdgeKey::Steep(side) => slot_of_item(side.item),
        EdgeKey::Order(_) => None,
    }
}

/// The slot of the requirement that an item is.
fn slot_of_item(item: Item) -> Option<u32>
    ensures { result ≡ slot_of_item item }
{
    match item {
        Item::Requirement(slot) => Some(slot),
        Item::Uncertain(_) => None,
    }
}

/// Adds the guards of the requirements in these slots.
fn add_guards(plan: &Plan, used: &[bool; SLOTS], literals: &mut [Option<u8>; CHOICES as usize])
    requires none { literals.old ≡ replicate CHOICES None }
    ensures { AreGathered plan.now.requirements used.now literals.new }
{
    for position in 0..plan.requirements() {
        let Some(requirement) = plan.requirement(position) else {
            return;
        };
        if used[requirement.slot as usize] {
            add_literals(requirement.guard.literals(), literals);
        }
    }
}

/// Adds literals; one on a choice that has an alternative already takes its place.
fn add_literals(guard: &[Literal], literals: &mut [Option<u8>; CHOICES as usize])
    requires { All IsSmallLiteral guard.now }
    ensures { AreAdded guard.now literals.old literals.new }
{
    for literal in guard {
        literals[literal.choice as usize] = Some(literal.alternative as u8);
    }
}

/// Whether each of the literals is picked.
pub(crate) fn applies(literals: &[Option<u8>; CHOICES as usize], picks: &[Pick]) -> bool
    ensures { IsTrue result ↔ AreAllPicked picks.now literals.now }
{
    for choice in 0..CHOICES as usize {
        if let Some(alternative) = literals[choice] {
            if !is_picked(picks, choice, alternative) {
                return false;
            }
        }
    }
    true
}

/// Whether the pick of a choice is this alternative.
fn is_picked(picks: &[Pick], choice: usize, alternative: u8) -> bool
    ensures { result ≡ is_alternative alternative (slice_get picks.now choice) }
{
    match picks.get(choice) {
        Some(Pick::Alternative(picked)) => *picked == u32::from(alternative),
        _ => false,
    }
}
