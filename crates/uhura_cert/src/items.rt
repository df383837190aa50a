//! The parts of a document as lines.
ghost use Rattle.std.specs.Prelude.{◌≡◌, ◌<◌, length, IfOk};
ghost use Rattle.uhura_plan.specs.Sound.{IsName, IsLiteralAmong};
ghost use Rattle.uhura_plan.specs.Lists.{uncertain_names};
ghost use Rattle.uhura_veto.specs.Vetoes.{IsItemOf, veto_names};
ghost use Rattle.uhura_command.specs.Script.{name_at, item_name, literal_names};
ghost use Rattle.uhura_cert.specs.Order.{IsEdgeOf};
ghost use Rattle.uhura_cert.specs.Items.{edge_name, pick_item};

use uhura_command::ItemName;
use uhura_item::{EdgeKind, EdgeName, Item};
use uhura_plan::{EdgeKey, Item as Thing, Literal, Name, Plan, SideKey};
use uhura_veto::Vetoes;

/// The line of a pick.
pub(crate) fn pick_item(plan: &Plan, literal: Literal) -> Item
    requires { IsLiteralAmong plan.now.choices literal }
    ensures { result ≡ pick_item plan.now literal }
{
    let choice = plan.choice(literal.choice).unwrap();
    let alternative = choice.alternatives.as_slice()[literal.alternative as usize];
    Item::Pick(choice.name, alternative.0)
}

/// The name of a duration.
fn uncertain_name(plan: &Plan, place: u32) -> Name
    requires { place < length plan.now.uncertains }
    ensures { result ≡ name_at (uncertain_names plan.now.uncertains) place }
{
    plan.uncertain(place).unwrap().name
}

/// The name of a requirement or of a duration.
pub(crate) fn thing_name(plan: &Plan, thing: Thing) -> ItemName
    requires { IsItemOf plan.now thing }
    ensures { result ≡ item_name plan.now thing }
{
    match thing {
        Thing::Requirement(slot) => ItemName::Require(plan.requirement_in(slot).unwrap().name),
        Thing::Uncertain(place) => ItemName::Uncertain(uncertain_name(plan, place)),
    }
}

/// The name of an edge of a side.
fn side_edge(plan: &Plan, key: SideKey, kind: EdgeKind) -> EdgeName
    requires { IsItemOf plan.now key.item }
    ensures { result ≡ EdgeName.Side (item_name plan.now key.item) key.side kind }
{
    EdgeName::Side(thing_name(plan, key.item), key.side, kind)
}

/// The name of an edge.
pub(crate) fn edge_name(plan: &Plan, edge: EdgeKey) -> EdgeName
    requires { IsEdgeOf plan.now edge }
    ensures { result ≡ edge_name plan.now edge }
{
    match edge {
        EdgeKey::Loose(key) => side_edge(plan, key, EdgeKind::Loose),
        EdgeKey::Steep(key) => side_edge(plan, key, EdgeKind::Steep),
        EdgeKey::Firm(key) => side_edge(plan, key, EdgeKind::Firm),
        EdgeKey::Order(place) => EdgeName::Order(uncertain_name(plan, place)),
    }
}

/// The name of a veto.
pub(crate) fn veto_name(vetoes: &Vetoes, place: u32) -> Name
    requires { place < length vetoes.now }
    ensures at { result ≡ name_at (veto_names vetoes.now) place }
    ensures named { IsName result }
{
    let name = vetoes.veto(place).unwrap().name();
    let _ = name.bytes();
    name
}
