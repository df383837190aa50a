//! Tables of edges that the table of all places is filled with.
ghost use Rattle.std.specs.Prelude.{◌≡◌, ◌<◌, IfSome};
ghost use Rattle.uhura_plan.specs.Sound.{IsSoundUncertain};
ghost use Rattle.uhura_plan.specs.declared.key.Item.TheVariants as item;
ghost use Rattle.uhura_net.specs.Place.{IsPlacedItem, place_number, HasPlace};
ghost use Rattle.uhura_net.specs.Table.{IsEdgeFor};
ghost use Rattle.uhura_worst.specs.declared.node.TheConstants.{FIRST_OF_ENDS};
ghost use Rattle.uhura_worst.specs.Nodes.{HasNodes};
ghost use Rattle.uhura_worst.specs.Edges.{Tables};

use uhura_net::Edge;
use uhura_plan::{EdgeKey, Requirement, Uncertain};

/// The tables of a plan's items: which edges each requirement has, and which ones each duration.
pub trait Tables {
    /// The edges by items and keys.
    ghost tables: { Self → Tables };

    /// The edge of a key in the table of a requirement.
    fn requirement_edge(&self, requirement: &Requirement, key: EdgeKey) -> Option<Edge>
        requires { HasNodes requirement.now }
        ensures edge { result ≡ (tables self.now).of_requirement requirement.now key }
        ensures fits { HasPlace key → IfSome result (IsEdgeFor (place_number key)) };

    /// The edge of a key in the table of the duration in this place.
    fn duration_edge(&self, duration: u32, uncertain: &Uncertain, key: EdgeKey) -> Option<Edge>
        requires place { IsPlacedItem (item.Uncertain duration) }
        requires sound { IsSoundUncertain FIRST_OF_ENDS uncertain.now }
        ensures edge { result ≡ (tables self.now).of_duration duration uncertain.now key }
        ensures fits { HasPlace key → IfSome result (IsEdgeFor (place_number key)) };
}
