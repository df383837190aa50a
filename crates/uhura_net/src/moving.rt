//! Moving units along a walk.
ghost use Rattle.std.specs.Prelude.{◌≡◌, ℕ, ◌<◌, pos, negsuc, ◌≤ℤ◌, length, IfSome, unwrap_or};
ghost use Rattle.std.specs.List.{All, IsDistinct};
ghost use Rattle.uhura_net.specs.declared.place.TheConstants.{PLACES};
ghost use Rattle.uhura_net.specs.Edges.{no_edge};
ghost use Rattle.uhura_net.specs.Walk.{bounds_of};
ghost use Rattle.uhura_net.specs.Circulation.{Units, edges_of, units_of};
ghost use Rattle.uhura_net.specs.Residual.{is_same_place, residual_edge, residual_walk, CanMove, IsPushed};
ghost use Rattle.uhura_net.specs.Net.{IsNetEdge, AreNetEdges};

use crate::sparse::SparseEdges;
use crate::{Edge, Place};

/// Adds the amount to each place that is walked forward and takes it from each that is walked backward.
pub(crate) fn move_units(units: &mut [u64], places: &[Place], backward: &[bool], amount: u64)
    requires steps { length backward.now ≡ length places.now }
    requires once { IsDistinct is_same_place places.now }
    requires room { CanMove places.now backward.now amount units.old }
    ensures pushed { IsPushed places.now backward.now amount
        (units_of units.old) (units_of units.new) }
    ensures places { length units.new ≡ length units.old }
{
    for (step, place) in places.iter().enumerate() {
        let at = place.0 as usize;
        if backward[step] {
            units[at] -= amount;
        } else {
            units[at] += amount;
        }
    }
}

/// The sum of the bounds along a walk.
pub(crate) fn bounds_along(edges: &SparseEdges, places: &[Place], backward: &[bool]) -> i128
    requires edges { AreNetEdges edges.now }
    requires steps { length backward.now ≡ length places.now }
    requires inside { All (λ place. place.0 < PLACES) places.now }
    ensures { (units : Units) → result ≡
        bounds_of (residual_walk (edges_of edges.now) units places.now backward.now) }
{
    let mut sum = 0;
    for (step, place) in places.iter().enumerate() {
        sum += i128::from(walked_bound(edges.get(*place), backward[step]));
    }
    sum
}

/// The bound of an edge that is walked forward or backward.
fn walked_bound(edge: Option<Edge>, backward: bool) -> i64
    requires { IfSome edge IsNetEdge }
    ensures bound { (units : ℕ) → result ≡
        (residual_edge (unwrap_or edge no_edge) units backward).bound }
    ensures least { negsuc 1999999999 ≤ℤ result }
    ensures most { result ≤ℤ pos 2000000000 }
{
    let bound = match edge {
        Some(edge) => edge.bound,
        None => 0,
    };
    if backward { -bound } else { bound }
}
