//! What follows from the definitions: each contract is a law, and the bodies are empty.
ghost use Rattle.std.specs.Prelude.{◌≡◌, ℕ, ◌+◌, ◌*◌, ◌<◌, ◌≤◌, ℤ, pos, ◌*ℤ◌, ◌≤ℤ◌, List};
ghost use Rattle.std.specs.List.{All};
ghost use Rattle.uhura_plan.specs.declared.limits.TheConstants.{REQUIREMENTS, UNCERTAINS, UNIT_PRICE};
ghost use Rattle.uhura_plan.specs.declared.key.EdgeKey.{EdgeKey};
ghost use Rattle.uhura_net.specs.declared.edge.Edge.{Edge};
ghost use Rattle.uhura_net.specs.declared.place.TheConstants.{PLACES};
ghost use Rattle.uhura_net.specs.declared.place.Place.{Place};
ghost use Rattle.uhura_net.specs.Place.{place_number, HasPlace, StandsAt, is_loose, is_loose_key};
ghost use Rattle.uhura_net.specs.Edges.{Edges, edge_at, KeepsAt, AreKeptAt, AreKept};
ghost use Rattle.uhura_net.specs.Walk.{IsClosedWalk, bounds_of, IsNegativeWalk};
ghost use Rattle.uhura_net.specs.Sums.{sum_below, int_sum_below};
ghost use Rattle.uhura_net.specs.Circulation.{Units, IsBalanced, IsCirculation, weighed_sum, value_of, KeepUsedWithin, allowed_to_units, allowed_to_capacities};
ghost use Rattle.uhura_net.specs.Optimal.{IsOptimal, firm_edges, loose_capacity, loose_excess, ArePlaced, FirmOutweighLoose};

/// Different edges stand at different places, so `key_of` gives back the edge that `place_of` placed. Each stands at
/// one of the places, and each place is that of an edge.
pub fn places_and_keys_are_one_to_one()
    ensures apart { (a b : EdgeKey) → HasPlace a → HasPlace b →
        place_number a ≡ place_number b → a ≡ b }
    ensures inside { (key : EdgeKey) → HasPlace key → place_number key < PLACES }
    ensures onto { (place : ℕ) → place < PLACES → (key : EdgeKey) × StandsAt place key }
{}

/// The places that are loose are those of the loose edges.
pub fn loose_places_are_those_of_loose_edges()
    ensures { (key : EdgeKey) → HasPlace key → is_loose (place_number key) ≡ is_loose_key key }
{}

/// Where some times keep each edge of a closed walk, whole or in k-ths, its bounds sum to at least 0.
pub fn closed_walks_that_times_keep_are_not_negative()
    ensures { (k : ℕ) (times : ℕ → ℤ) (walk : List Edge) →
        1 ≤ k → All (KeepsAt k times) walk → IsClosedWalk walk → pos 0 ≤ℤ bounds_of walk }
{}

/// So no times keep edges that have a closed walk whose bounds sum below 0.
pub fn times_and_negative_walks_exclude_each_other()
    ensures whole { (edges : Edges) (places : List Place) (times : ℕ → ℤ) →
        AreKept edges times → IsNegativeWalk edges places → ⊥ }
    ensures in_parts { (k : ℕ) (edges : Edges) (places : List Place) (times : ℕ → ℤ) →
        1 ≤ k → AreKeptAt k edges times → IsNegativeWalk edges places → ⊥ }
{}

/// Whatever each node is given, balanced units sum to the same with it at the ends of the edges as at their starts:
/// with a number for each node, and with times.
pub fn balanced_units_cancel_times()
    ensures counts { (places : ℕ) (edges : Edges) (units : Units) (count : ℕ → ℕ) →
        IsBalanced places edges units →
        sum_below places (λ place. units place * count (edge_at edges place).to) ≡
        sum_below places (λ place. units place * count (edge_at edges place).from) }
    ensures times { (places : ℕ) (edges : Edges) (units : Units) (times : ℕ → ℤ) →
        IsBalanced places edges units →
        weighed_sum places edges units (λ edge. times edge.to) ≡
        weighed_sum places edges units (λ edge. times edge.from) }
{}

/// Weak duality at every scale: where times in k-ths keep each edge that has units, but for an allowance, k times the
/// value is at most the sum of the units times the allowances, and so of the capacities times the allowances.
pub fn values_are_bounded_by_allowances()
    ensures any { (places k : ℕ) (edges : Edges) (units : Units) (times allowance : ℕ → ℤ) →
        IsBalanced places edges units → KeepUsedWithin places k edges units times allowance →
        (pos k *ℤ value_of places edges units) ≤ℤ
        int_sum_below places (λ place. pos (units place) *ℤ allowance place) }
    ensures not_below_0 { (places k : ℕ) (edges : Edges) (units : Units)
        (times : ℕ → ℤ) (allowance : ℕ → ℕ) →
        IsBalanced places edges units →
        KeepUsedWithin places k edges units times (λ place. pos (allowance place)) →
        (pos k *ℤ value_of places edges units) ≤ℤ pos (allowed_to_units places units allowance) }
    ensures by_capacities { (places k : ℕ) (edges : Edges) (units : Units)
        (times : ℕ → ℤ) (allowance : ℕ → ℕ) →
        IsCirculation places edges units →
        KeepUsedWithin places k edges units times (λ place. pos (allowance place)) →
        (pos k *ℤ value_of places edges units) ≤ℤ
        pos (allowed_to_capacities places edges allowance) }
{}

/// The value of a circulation, and potentials that show each other optimal: where the potentials keep each edge that
/// isn't loose, it is the sum of the loose capacities times what the potentials pass the bounds by. And they do keep
/// each such edge where some times do, and where each can carry more than all loose ones together.
pub fn optimal_circulations_are_paid_by_loose_edges()
    ensures value { (places : ℕ) (edges : Edges) (units : Units) (potentials : ℕ → ℤ) →
        IsCirculation places edges units → IsOptimal edges units potentials →
        AreKept (firm_edges edges) potentials →
        value_of places edges units ≡ pos (loose_excess places edges potentials) }
    ensures firm { (places : ℕ) (edges : Edges) (units : Units) (potentials times : ℕ → ℤ) →
        IsCirculation places edges units → IsOptimal edges units potentials →
        FirmOutweighLoose places edges → AreKept (firm_edges edges) times →
        AreKept (firm_edges edges) potentials }
{}

/// Of edges that stand where they may, each that isn't loose can carry more than all loose ones together: those of two
/// sides of each item, once as stated and once steep, can carry a price each.
pub fn firm_edges_outweigh_loose_ones()
    ensures loose { (edges : Edges) → ArePlaced edges →
        loose_capacity PLACES edges ≤ 4 * (REQUIREMENTS + UNCERTAINS) * UNIT_PRICE }
    ensures firm { (edges : Edges) → ArePlaced edges → FirmOutweighLoose PLACES edges }
{}
