//! What one search goes by.
ghost use Rattle.std.specs.Prelude.{ℕ, ◌≡◌, ◌<◌, Some, pos, neg_ℤ, ◌≤ℤ◌, IfSome};
ghost use Rattle.std.specs.Option.{option_map};
ghost use Rattle.uhura_net.specs.declared.place.TheConstants.{PLACES};
ghost use Rattle.uhura_net.specs.Edges.{time_at};
ghost use Rattle.uhura_net.specs.Optimal.{slack_of};
ghost use Rattle.uhura_net.specs.Residual.{residual_edge};
ghost use Rattle.uhura_net.specs.Net.{IsNetEdge};
ghost use Rattle.uhura_net.specs.Place.{is_loose};
ghost use Rattle.uhura_net.specs.Lists.{node_of, IsListing};
ghost use Rattle.uhura_path.specs.declared.ways.Arc.{Arc};
ghost use Rattle.uhura_path.specs.Ways.{ArePotentials, walkable, arc_of, arcs_of, roomy_edge, IsSoundArc};
ghost use Rattle.uhura_path.specs.declared.ways.TheConstants.{MOST_COST};
ghost use Rattle.uhura_path.specs.Quest.{IsQuest, aim_of};

use crate::{Arc, Task, Ways};
use uhura_net::{Edge, Lists, Net, Place, key_of};
use uhura_plan::EdgeKey;

/// A task over a net, with the mark of its labels.
#[derive(Clone, Copy)]
pub(crate) struct Quest<'a> {
    pub(crate) net: &'a Net,
    pub(crate) ways: Ways,
    pub(crate) potentials: &'a [i64],
    pub(crate) task: Task,
    pub(crate) mark: u32,
    pub(crate) outward: bool,
}

impl Quest<'_> {
    /// The arc at a place, forward or backward, where there is one, turned where the search goes outward.
    pub(crate) fn arc(&self, place: Place, backward: bool) -> Option<Arc>
        requires place { place.0 < PLACES }
        requires quest { IsQuest self.now }
        ensures arc { result ≡ (aim_of self.now).arcs place.0 backward }
        ensures sound { IfSome result IsSoundArc }
    {
        let arc = self.inward_arc(place, backward)?;
        if self.outward {
            Some(Arc {
                from: arc.to,
                to: arc.from,
                ..arc
            })
        } else {
            Some(arc)
        }
    }

    /// The arc at a place as it is.
    fn inward_arc(&self, place: Place, backward: bool) -> Option<Arc>
        requires place { place.0 < PLACES }
        requires quest { IsQuest self.now }
        ensures arc { result ≡ arcs_of (walkable self.now.ways self.now.net.now)
            (time_at self.now.potentials.now) place.0 backward }
        ensures sound { IfSome result IsSoundArc }
    {
        let edge = self.net.edge(place)?;
        match self.ways {
            Ways::Residual => {
                let units = self.net.units(place);
                residual_arc(self.potentials, edge, units, backward)
            }
            Ways::Firm => {
                if backward || is_loose(place) {
                    None
                } else {
                    Some(forward_arc(self.potentials, edge))
                }
            }
        }
    }

    /// The lists in which the arcs into a node are found, forward or backward.
    pub(crate) fn lists(&self, backward: bool) -> &Lists
        ensures sound { IsListing result.now }
        ensures ends { (place : ℕ) (arc : Arc) →
            (aim_of self.now).arcs place backward ≡ Some arc → arc.to ≡ node_of result.now place }
    {
        if self.outward == backward {
            self.net.entering()
        } else {
            self.net.leaving()
        }
    }
}

/// The arc along an edge that carries some units, forward or backward, where it has room for one more.
fn residual_arc(potentials: &[i64], edge: Edge, units: u64, backward: bool) -> Option<Arc>
    requires potentials { ArePotentials potentials.now }
    requires edge { IsNetEdge edge }
    ensures arc { result ≡ option_map (arc_of (time_at potentials.now))
        (roomy_edge (residual_edge edge units backward)) }
    ensures sound { IfSome result IsSoundArc }
{
    let arc = forward_arc(potentials, edge);
    let room = edge.capacity.saturating_sub(units);
    if backward && units >= 1 {
        Some(Arc {
            from: edge.to,
            to: edge.from,
            room: units,
            ..arc
        })
    } else if !backward && room >= 1 {
        Some(Arc { room, ..arc })
    } else {
        None
    }
}

/// The arc along an edge without units.
fn forward_arc(potentials: &[i64], edge: Edge) -> Arc
    requires potentials { ArePotentials potentials.now }
    requires edge { IsNetEdge edge }
    ensures arc { result ≡ arc_of (time_at potentials.now) edge }
    ensures sound { IsSoundArc result }
{
    Arc {
        from: edge.from,
        to: edge.to,
        cost: slack(potentials, edge).unsigned_abs(),
        room: edge.capacity,
    }
}

/// The slack of an edge.
fn slack(potentials: &[i64], edge: Edge) -> i64
    requires potentials { ArePotentials potentials.now }
    requires edge { IsNetEdge edge }
    ensures slack { result ≡ slack_of (time_at potentials.now) edge }
    ensures least { neg_ℤ (pos MOST_COST) ≤ℤ result }
    ensures most { result ≤ℤ pos MOST_COST }
{
    edge.bound - (potentials[edge.to as usize] - potentials[edge.from as usize])
}

/// Whether a place is one of a loose edge.
fn is_loose(place: Place) -> bool
    requires { place.0 < PLACES }
    ensures { result ≡ is_loose place.0 }
{
    match key_of(place) {
        EdgeKey::Loose(_) | EdgeKey::Steep(_) => true,
        EdgeKey::Firm(_) | EdgeKey::Order(_) => false,
    }
}
