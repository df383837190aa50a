//! What the lines of a document name, found in its state.
ghost use Rattle.std.specs.Prelude.{◌≡◌};
ghost use Rattle.uhura_plan.specs.Find.{literal_named};
ghost use Rattle.uhura_veto.specs.declared.item.ItemKind.TheVariants.{Require};
ghost use Rattle.uhura_veto.specs.Find.{item_named};
ghost use Rattle.uhura_line.specs.Reads.{name_of};
ghost use Rattle.uhura_command.specs.Apply.{kind_named};
ghost use Rattle.uhura_cert.specs.Machine.{edge_of, edge_named};

use uhura_command::ItemName;
use uhura_item::{EdgeKind, EdgeName};
use uhura_plan::{EdgeKey, Item as Thing, Literal, Name, Plan, SideKey};

/// The literal of the names of a choice and of one of its alternatives.
pub(crate) fn find_literal(plan: &Plan, choice: Name, alternative: Name) -> Option<Literal>
    ensures { result ≡ literal_named plan.now (choice, alternative) }
{
    let choice = plan.find_choice(choice)?;
    let alternative = plan.find_alternative(choice, alternative)?;
    Some(Literal {
        choice,
        alternative,
    })
}

/// The requirement of a name, by its slot.
fn find_requirement(plan: &Plan, name: Name) -> Option<Thing>
    ensures { result ≡ item_named plan.now Require name }
{
    let place = plan.find_requirement(name)?;
    let requirement = plan.requirement(place)?;
    Some(Thing::Requirement(requirement.slot))
}

/// The requirement of a name, by its slot, or the duration of a name, by its place.
pub(crate) fn find_thing(plan: &Plan, name: ItemName) -> Option<Thing>
    ensures { result ≡ item_named plan.now (kind_named name) (name_of name) }
{
    match name {
        ItemName::Require(name) => find_requirement(plan, name),
        ItemName::Uncertain(name) => {
            let place = plan.find_uncertain(name)?;
            Some(Thing::Uncertain(place))
        }
    }
}

/// An edge of a side.
fn edge_of(kind: EdgeKind, key: SideKey) -> EdgeKey
    ensures { result ≡ edge_of kind key }
{
    match kind {
        EdgeKind::Loose => EdgeKey::Loose(key),
        EdgeKind::Steep => EdgeKey::Steep(key),
        EdgeKind::Firm => EdgeKey::Firm(key),
    }
}

/// The edge of a name.
pub(crate) fn find_edge(plan: &Plan, name: EdgeName) -> Option<EdgeKey>
    ensures { result ≡ edge_named plan.now name }
{
    match name {
        EdgeName::Side(item, side, kind) => {
            let item = find_thing(plan, item)?;
            Some(edge_of(kind, SideKey { item, side }))
        }
        EdgeName::Order(name) => {
            let place = plan.find_uncertain(name)?;
            Some(EdgeKey::Order(place))
        }
    }
}
