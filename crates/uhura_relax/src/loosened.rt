//! The table of the loosened edges, each turned around.
ghost use Rattle.std.specs.Prelude.{◌≡◌, ℕ, ◌≤◌, false};
ghost use Rattle.uhura_net.specs.Place.{is_loose};
ghost use Rattle.uhura_net.specs.Table.{IsEdgeFor};
ghost use Rattle.uhura_worst.specs.Edges.{IsSoundConstraint};
ghost use Rattle.uhura_worst.specs.Units.{side_units};
ghost use Rattle.uhura_worst.specs.Filled.{IsFilledBy};
ghost use Rattle.uhura_worst.specs.WorstCase.{loosened_edge};
ghost use Rattle.uhura_relax.specs.Loosened.{turn_around, turned_tables};

use uhura_choice::{Branch, holds};
use uhura_net::{Edge, EdgeTable, FIRM_CAPACITY};
use uhura_plan::{EdgeKey, Plan, Requirement, Uncertain};
use uhura_worst::constraint::Constraint;
use uhura_worst::{Loosening, Tables, fill_by};

/// Makes each place of the table hold its loosened edge, turned around.
pub(crate) fn fill_turned(
    table: &mut EdgeTable,
    plan: &Plan,
    branch: &Branch,
    loosening: &Loosening,
)
    ensures { IsFilledBy (turned_tables branch.now (side_units loosening.now)) plan.now table.new }
{
    fill_by(table, plan, &Loosened { branch, loosening });
}

/// Which requirements are active, and by how much each side is loosened or narrowed.
#[derive(Clone, Copy)]
struct Loosened<'a> {
    branch: &'a Branch,
    loosening: &'a Loosening,
}

impl Tables for Loosened<'_> {
    ghost tables = { λ l. turned_tables l.branch.now (side_units l.loosening.now) };

    fn requirement_edge(&self, requirement: &Requirement, key: EdgeKey) -> Option<Edge> {
        let EdgeKey::Firm(side) = key else {
            return None;
        };
        if !holds(&requirement.guard, self.branch) {
            return None;
        }
        match Constraint::of_requirement(side.side, requirement) {
            Some(constraint) => Some(turned_edge(constraint, self.loosening.units(side))),
            None => None,
        }
    }

    fn duration_edge(&self, duration: u32, uncertain: &Uncertain, key: EdgeKey) -> Option<Edge> {
        match key {
            EdgeKey::Loose(_) | EdgeKey::Steep(_) => None,
            EdgeKey::Firm(side) => {
                let constraint = Constraint::of_duration(side.side, duration, uncertain);
                Some(turned_edge(constraint, self.loosening.units(side)))
            }
            EdgeKey::Order(_) => Some(turned_edge(Constraint::of_order(duration), 0)),
        }
    }
}

/// The edge of a constraint that is loosened by so many units, turned around.
fn turned_edge(constraint: Constraint, units: u64) -> Edge
    requires constraint { IsSoundConstraint constraint }
    requires units { units ≤ 10_000_000_000_000 }
    ensures edge { result ≡ turn_around (loosened_edge 1 units constraint) }
    ensures fits { (place : ℕ) → is_loose place ≡ false → IsEdgeFor place result }
{
    Edge {
        from: constraint.to,
        to: constraint.from,
        bound: constraint.bound + units as i64,
        capacity: FIRM_CAPACITY,
    }
}
