//! What follows from the definitions: each contract is a law, and the bodies are empty.
ghost use Rattle.std.specs.Prelude.{◌≡◌, ◌↔◌, ℕ, List, Option};
ghost use Rattle.uhura_plan.specs.Lists.{Lists};
ghost use Rattle.uhura_choice.specs.declared.prefix.Pick.{Pick};
ghost use Rattle.uhura_net.specs.declared.place.TheConstants.{PLACES};
ghost use Rattle.uhura_net.specs.declared.place.Place.{Place};
ghost use Rattle.uhura_net.specs.Edges.{Edges};
ghost use Rattle.uhura_net.specs.Walk.{IsNegativeWalk};
ghost use Rattle.uhura_net.specs.Circulation.{Units, IsCirculation, value_of};
ghost use Rattle.uhura_net.specs.Optimal.{firm_edges};
ghost use Rattle.uhura_conflict.specs.Learned.{places_in, units_in, AreUnitsOf, AreAmong, flow_value, walk_pairs};
ghost use Rattle.uhura_conflict.specs.Literals.{AreLiteralsOf, AreActiveAt, AreAllPicked, HaveGuardsIn};

/// A conflict applies exactly where the requirements at its places are active.
pub fn conflicts_apply_where_requirements_are_active()
    ensures { (plan : Lists) (places : List Place) (literals : List (Option ℕ))
        (picks : List Pick) → AreLiteralsOf plan places literals →
        AreAllPicked picks literals ↔ AreActiveAt plan places picks }
{}

/// Its literals stay those of the guards at its places for as long as these guards stay.
pub fn literals_stay_with_guards()
    ensures { (old new : Lists) (places : List Place) (literals : List (Option ℕ)) →
        HaveGuardsIn old new places → HaveGuardsIn new old places →
        AreLiteralsOf old places literals → AreLiteralsOf new places literals }
{}

/// The units of a circulation, as pairs, are one over more edges too, and of the same value.
pub fn flows_are_valid_for_more_edges()
    ensures valid { (some all : Edges) (units : Units) (pairs : List (Place × ℕ)) →
        AreAmong some all → IsCirculation PLACES some units → AreUnitsOf units pairs →
        IsCirculation PLACES all (units_in pairs) }
    ensures worth { (some all : Edges) (units : Units) (pairs : List (Place × ℕ)) →
        AreAmong some all → IsCirculation PLACES some units → AreUnitsOf units pairs →
        flow_value all pairs ≡ value_of PLACES some units }
{}

/// A firm cycle, as pairs, is one among more edges too.
pub fn cycles_are_valid_for_more_edges()
    ensures { (some all : Edges) (cycle : List Place) → AreAmong some all →
        IsNegativeWalk (firm_edges some) cycle →
        IsNegativeWalk (firm_edges all) (places_in (walk_pairs cycle)) }
{}
