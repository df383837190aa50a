//! The edges of the worst case, by the tables of requirements and of durations.
ghost use Rattle.std.specs.Prelude.{◌≡◌};
ghost use Rattle.uhura_veto.specs.State.{State};
ghost use Rattle.uhura_worst.specs.Edges.{tables_under, item_of, edge_of};

use crate::Tables;
use crate::constraint::Constraint;
use uhura_net::Edge;
use uhura_plan::{EdgeKey, Item, Plan, Requirement, Uncertain};
use uhura_veto::rooms::{duration_room, requirement_room};
use uhura_veto::{Room, Vetoes};

/// The edge of a key, none where the plan has no such item or its table no such edge.
pub fn edge(plan: &Plan, vetoes: &Vetoes, key: EdgeKey) -> Option<Edge>
    ensures { result ≡ edge_of (record { plan = plan.now; vetoes = vetoes.now }) key }
{
    // The counts of a plan are within their limits.
    let _ = plan.requirements();
    match item_of(key) {
        Item::Requirement(slot) => match plan.requirement_in(slot) {
            Some(requirement) => vetoes.requirement_edge(requirement, key),
            None => None,
        },
        Item::Uncertain(duration) => match plan.uncertain(duration) {
            Some(uncertain) => vetoes.duration_edge(duration, uncertain, key),
            None => None,
        },
    }
}

impl Tables for Vetoes {
    ghost tables = { tables_under };

    fn requirement_edge(&self, requirement: &Requirement, key: EdgeKey) -> Option<Edge> {
        match key {
            EdgeKey::Loose(key) => match Constraint::of_requirement(key.side, requirement) {
                Some(constraint) => constraint.loose(requirement.rate(key.side)),
                None => None,
            },
            EdgeKey::Firm(key) => match Constraint::of_requirement(key.side, requirement) {
                Some(constraint) => constraint.firm(requirement_room(self, key.side, requirement)),
                None => None,
            },
            EdgeKey::Steep(key) => match Constraint::of_requirement(key.side, requirement) {
                Some(constraint) => constraint.steep(requirement.rate(key.side)),
                None => None,
            },
            EdgeKey::Order(_) => None,
        }
    }

    fn duration_edge(&self, duration: u32, uncertain: &Uncertain, key: EdgeKey) -> Option<Edge> {
        match key {
            EdgeKey::Loose(key) => {
                let constraint = Constraint::of_duration(key.side, duration, uncertain);
                constraint.loose(uncertain.rate(key.side))
            }
            EdgeKey::Firm(key) => {
                let constraint = Constraint::of_duration(key.side, duration, uncertain);
                constraint.firm(duration_room(self, duration, key.side, uncertain))
            }
            EdgeKey::Steep(key) => {
                let constraint = Constraint::of_duration(key.side, duration, uncertain);
                constraint.steep(uncertain.rate(key.side))
            }
            EdgeKey::Order(_) => Constraint::of_order(duration).firm(Room::Units(0)),
        }
    }
}

/// The item whose table has the edge.
fn item_of(key: EdgeKey) -> Item
    ensures { result ≡ item_of key }
{
    match key {
        EdgeKey::Loose(key) | EdgeKey::Firm(key) | EdgeKey::Steep(key) => key.item,
        EdgeKey::Order(duration) => Item::Uncertain(duration),
    }
}
