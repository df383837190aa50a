//! The edges that are followed.
ghost use Rattle.std.specs.Prelude.{◌≡◌, ◌<◌, ◌≤◌, length, IfSome, vec_capacity};
ghost use Rattle.uhura_net.specs.Table.{IsEdgeFor};
ghost use Rattle.uhura_net.specs.Edges.{chosen_edges};
ghost use Rattle.uhura_cycle.specs.Steps.{AreStepsOf, AreSoundSteps, IsLeastBound};

use crate::step::Step;
use uhura_net::{Edge, EdgeTable, PLACES, Place};

/// Makes the steps those of the chosen edges that are there.
pub(crate) fn gather(table: &EdgeTable, chosen: &[bool], steps: &mut Vec<Step>)
    requires chosen { length chosen.now ≡ PLACES }
    requires room { PLACES ≤ vec_capacity steps.old }
    ensures steps { AreStepsOf (chosen_edges table.now chosen.now) steps.new.items }
    ensures sound { AreSoundSteps steps.new.items }
    ensures room { vec_capacity steps.new ≡ vec_capacity steps.old }
{
    steps.clear();
    for number in 0..PLACES as u32 {
        if let Some(edge) = chosen_edge(table, chosen, number) {
            steps.push_reserved(Step {
                place: Place(number),
                edge,
            });
        }
    }
}

/// The edge at a place, where there is one and the place is chosen.
fn chosen_edge(table: &EdgeTable, chosen: &[bool], number: u32) -> Option<Edge>
    requires number { number < PLACES }
    requires chosen { length chosen.now ≡ PLACES }
    ensures edge { result ≡ chosen_edges table.now chosen.now number }
    ensures sound { IfSome result (IsEdgeFor number) }
{
    if chosen[number as usize] {
        table.get(Place(number))
    } else {
        None
    }
}

/// The least bound, or 0 where none is below 0.
pub(crate) fn least_bound(steps: &[Step]) -> i64
    requires { AreSoundSteps steps.now }
    ensures { IsLeastBound steps.now result }
{
    let mut least = 0;
    for step in steps {
        if step.edge.bound < least {
            least = step.edge.bound;
        }
    }
    least
}
