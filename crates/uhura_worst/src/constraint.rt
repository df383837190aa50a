//! What a side says of two nodes, and the edges that stand for it.
ghost use Rattle.std.specs.Prelude.{◌≡◌, ℕ, ◌<◌, true, false, IfSome};
ghost use Rattle.uhura_plan.specs.Limits.{IsRate, IsSecond};
ghost use Rattle.uhura_plan.specs.Sound.{IsSoundUncertain};
ghost use Rattle.uhura_plan.specs.declared.key.Item.TheVariants as item;
ghost use Rattle.uhura_net.specs.Place.{IsPlacedItem, is_loose};
ghost use Rattle.uhura_net.specs.Table.{IsEdgeFor};
ghost use Rattle.uhura_veto.specs.Room.{IsSoundRoom};
ghost use Rattle.uhura_worst.specs.declared.node.TheConstants.{FIRST_OF_ENDS};
ghost use Rattle.uhura_worst.specs.Nodes.{HasNode, HasNodes};
ghost use Rattle.uhura_worst.specs.Edges.{between, requirement_constraint, duration_constraint};
ghost use Rattle.uhura_worst.specs.Edges.{order_constraint, loose_edge, steep_edge_by, steep_edge, firm_edge};
ghost use Rattle.uhura_worst.specs.Edges.{IsSoundConstraint};

use crate::node::{greatest_end, greatest_node, least_end, least_node};
use uhura_net::{Edge, FIRM_CAPACITY};
use uhura_plan::{EventRef, Rate, Requirement, Second, Side, Uncertain};
use uhura_veto::Room;

/// The time of the node `to` is at most `bound` units after that of the node `from`.
#[derive(Clone, Copy, Debug, PartialEq, Eq)]
pub struct Constraint {
    pub from: u32,
    pub to: u32,
    pub bound: i64,
}

impl Constraint {
    /// What a side of a requirement says, where it has a bound.
    pub fn of_requirement(side: Side, requirement: &Requirement) -> Option<Constraint>
        requires { HasNodes requirement.now }
        ensures constraint { result ≡ requirement_constraint side requirement.now }
        ensures sound { IfSome result IsSoundConstraint }
    {
        match side {
            Side::Lower => match requirement.lower.bound {
                Some(least) => Some(Constraint::between(requirement.to, requirement.from, -least)),
                None => None,
            },
            Side::Upper => match requirement.upper.bound {
                Some(most) => Some(Constraint::between(requirement.from, requirement.to, most)),
                None => None,
            },
        }
    }

    /// What a side of the duration in this place says.
    pub fn of_duration(side: Side, duration: u32, uncertain: &Uncertain) -> Constraint
        requires place { IsPlacedItem (item.Uncertain duration) }
        requires sound { IsSoundUncertain FIRST_OF_ENDS uncertain.now }
        ensures constraint { result ≡ duration_constraint side duration uncertain.now }
        ensures sound { IsSoundConstraint result }
    {
        match side {
            Side::Lower => Constraint {
                from: uncertain.start,
                to: least_end(duration),
                bound: uncertain.lower,
            },
            Side::Upper => Constraint {
                from: greatest_end(duration),
                to: uncertain.start,
                bound: -uncertain.upper,
            },
        }
    }

    /// The least end of the duration in this place comes no later than its greatest.
    pub fn of_order(duration: u32) -> Constraint
        requires { IsPlacedItem (item.Uncertain duration) }
        ensures constraint { result ≡ order_constraint duration }
        ensures sound { IsSoundConstraint result }
    {
        Constraint {
            from: greatest_end(duration),
            to: least_end(duration),
            bound: 0,
        }
    }

    /// The event `to` comes at most `bound` after the event `from`, however late the one and however early the
    /// other.
    fn between(from: EventRef, to: EventRef, bound: i64) -> Constraint
        requires from { HasNode from }
        requires to { HasNode to }
        ensures { result ≡ between from to bound }
    {
        Constraint {
            from: least_node(from),
            to: greatest_node(to),
            bound,
        }
    }

    /// The edge of the constraint as stated, there where the side has a price.
    pub(crate) fn loose(self, price: Option<Rate>) -> Option<Edge>
        requires constraint { IsSoundConstraint self }
        requires price { IfSome price IsRate }
        ensures edge { result ≡ loose_edge price self }
        ensures fits { (place : ℕ) → is_loose place ≡ true → IfSome result (IsEdgeFor place) }
    {
        match price {
            Some(rate) => Some(Edge {
                from: self.from,
                to: self.to,
                bound: self.bound,
                capacity: u64::from(rate.first),
            }),
            None => None,
        }
    }

    /// The edge of the constraint moved by the units that the first price covers, there where the side has a second.
    pub(crate) fn steep(self, price: Option<Rate>) -> Option<Edge>
        requires constraint { IsSoundConstraint self }
        requires price { IfSome price IsRate }
        ensures edge { result ≡ steep_edge price self }
        ensures fits { (place : ℕ) → is_loose place ≡ true → IfSome result (IsEdgeFor place) }
    {
        let rate = price?;
        let second = rate.second?;
        Some(self.steep_by(rate.first, second))
    }

    /// The edge of the constraint moved by the units that a first price covers, with what the second is above it.
    fn steep_by(self, first: u32, second: Second) -> Edge
        requires constraint { IsSoundConstraint self }
        requires second { IsSecond first second }
        ensures edge { result ≡ steep_edge_by first self second }
        ensures fits { (place : ℕ) → is_loose place ≡ true → IsEdgeFor place result }
    {
        Edge {
            from: self.from,
            to: self.to,
            bound: self.bound + i64::from(second.after),
            capacity: u64::from(second.rate - first),
        }
    }

    /// The edge of the constraint moved by the room, there where that is a number.
    pub(crate) fn firm(self, room: Room) -> Option<Edge>
        requires constraint { IsSoundConstraint self }
        requires room { IsSoundRoom room }
        ensures edge { result ≡ firm_edge room self }
        ensures fits { (place : ℕ) → is_loose place ≡ false → IfSome result (IsEdgeFor place) }
    {
        match room {
            Room::Units(most) => Some(Edge {
                from: self.from,
                to: self.to,
                bound: self.bound + most as i64,
                capacity: FIRM_CAPACITY,
            }),
            Room::Unlimited => None,
        }
    }
}
