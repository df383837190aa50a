//! What circulations, closed walks and denials show of the proposals whose branch begins with some picks, at every
//! scale. Each contract is a law over the definitions, and the bodies are empty.
ghost use Rattle.std.specs.Prelude.{◌≡◌, ℕ, ◌<◌, ℤ, pos, ◌*ℤ◌, ◌≤ℤ◌, ◌<ℤ◌, Bool, IsTrue, IsFalse, List, Contains, slice_index_or, false, length, Option};
ghost use Rattle.std.specs.List.{All};
ghost use Rattle.uhura_plan.specs.declared.guard.Literal.{Literal};
ghost use Rattle.uhura_plan.specs.declared.key.EdgeKey.{EdgeKey};
ghost use Rattle.uhura_plan.specs.Sound.{IsSound};
ghost use Rattle.uhura_choice.specs.declared.prefix.Pick.{Pick};
ghost use Rattle.uhura_choice.specs.Branch.{holds};
ghost use Rattle.uhura_choice.specs.Order.{IsFrontOf};
ghost use Rattle.uhura_net.specs.declared.edge.Edge.{Edge};
ghost use Rattle.uhura_net.specs.declared.place.Place.{Place};
ghost use Rattle.uhura_net.specs.declared.place.TheConstants.{PLACES};
ghost use Rattle.uhura_net.specs.Place.{place_number, HasPlace};
ghost use Rattle.uhura_net.specs.Edges.{Edges, AreKept, AreKeptAt, chosen_edges};
ghost use Rattle.uhura_net.specs.Walk.{IsClosedWalk, bounds_of, IsNegativeWalk};
ghost use Rattle.uhura_net.specs.Circulation.{Units, IsCirculation};
ghost use Rattle.uhura_net.specs.Optimal.{IsOptimal, firm_edges};
ghost use Rattle.uhura_veto.specs.declared.veto.Veto.TheVariants.{Deny};
ghost use Rattle.uhura_veto.specs.State.{State};
ghost use Rattle.uhura_veto.specs.Denial.{is_denied};
ghost use Rattle.uhura_worst.specs.Edges.{is_active_edge};
ghost use Rattle.uhura_worst.specs.Filled.{IsTableOf};
ghost use Rattle.uhura_worst.specs.Proposal.{Proposal};
ghost use Rattle.uhura_worst.specs.Allowed.{Allowed};
ghost use Rattle.uhura_worst.specs.Cost.{cost};
ghost use Rattle.uhura_worst.specs.WorstCase.{KeepsFirmEdges, proposal_at};
ghost use Rattle.uhura_dual.specs.Settled.{AreSettled, IsSettledFirm, AreAllSettled, key_at, settled_edges, worth_with};

/// Duality on plans: at every scale k, k times what a circulation over settled edges and the first picks are worth is
/// at most the cost of each allowed proposal whose branch begins with these picks.
pub fn circulations_bound_costs()
    ensures { (state : State) (picks : List Pick) (edges : Edges) (units : Units)
        (k : ℕ) (q : Proposal) → IsSound state.plan →
        AreSettled state picks edges → IsCirculation PLACES edges units →
        Allowed state k q → IsFrontOf picks q.branch →
        (pos k *ℤ worth_with state.plan picks edges units) ≤ℤ pos (cost state.plan k q) }
{}

/// Where settled edges that aren't loose make a closed walk whose bounds sum below 0, nothing is allowed at any scale
/// in the branches that begin with these picks: given edge by edge, and by places.
pub fn negative_walks_leave_nothing()
    ensures by_edges { (state : State) (picks : List Pick) (walk : List Edge)
        (k : ℕ) (q : Proposal) → IsSound state.plan →
        All (IsSettledFirm state picks) walk → IsClosedWalk walk → bounds_of walk <ℤ pos 0 →
        Allowed state k q → IsFrontOf picks q.branch → ⊥ }
    ensures by_places { (state : State) (picks : List Pick) (edges : Edges) (places : List Place)
        (k : ℕ) (q : Proposal) → IsSound state.plan →
        AreSettled state picks edges → IsNegativeWalk (firm_edges edges) places →
        Allowed state k q → IsFrontOf picks q.branch → ⊥ }
{}

/// Where a denial has all its literals among the first picks, nothing is allowed at any scale in the branches that
/// begin with them: this denial, and any.
pub fn denials_leave_nothing()
    ensures this { (state : State) (picks : List Pick) (name : List ℕ) (literals : List Literal)
        (k : ℕ) (q : Proposal) →
        Contains state.vetoes (Deny name literals) → IsTrue (holds literals picks) →
        Allowed state k q → IsFrontOf picks q.branch → ⊥ }
    ensures any { (state : State) (picks : List Pick) (k : ℕ) (q : Proposal) →
        IsTrue (is_denied state.vetoes picks) →
        Allowed state k q → IsFrontOf picks q.branch → ⊥ }
{}

/// What is settled by some first picks stays so with more of them.
pub fn settled_edges_stay_settled()
    ensures { (state : State) (picks more : List Pick) (edges : Edges) →
        AreSettled state picks edges → IsFrontOf picks more → AreSettled state more edges }
{}

/// The edge that stands at a place: `key_at` and `place_number` undo each other, and `settled_edges` are the settled
/// edges.
pub fn each_place_has_its_edge()
    ensures key { (key : EdgeKey) → HasPlace key → key_at (place_number key) ≡ key }
    ensures settled { (state : State) (picks : List Pick) →
        AreAllSettled state picks (settled_edges state picks) }
{}

/// All settled edges are such, and where times keep those of them that aren't loose, they keep each edge of the state
/// that is there, active and not loose. And where they keep these, they keep settled edges that aren't loose, however
/// few, at every scale.
pub fn settled_edges_are_those_of_the_plan()
    ensures settled { (state : State) (picks : List Pick) (edges : Edges) →
        AreAllSettled state picks edges → AreSettled state picks edges }
    ensures kept { (state : State) (picks : List Pick) (edges : Edges) (times : ℕ → ℤ) →
        IsSound state.plan → AreAllSettled state picks edges → AreKept (firm_edges edges) times →
        KeepsFirmEdges state 1 picks times }
    ensures among { (state : State) (picks : List Pick) (edges : Edges) (k : ℕ) (times : ℕ → ℤ) →
        AreSettled state picks edges → KeepsFirmEdges state k picks times →
        AreKeptAt k (firm_edges edges) times }
{}

/// In a table of the edges of a state those at the places of active edges are the settled ones.
pub fn tables_have_the_settled_edges()
    ensures { (state : State) (picks : List Pick) (table : List (Option Edge))
        (chosen : List Bool) → IsTableOf state table → length table ≡ PLACES →
        ((key : EdgeKey) → HasPlace key →
        slice_index_or chosen (place_number key) false ≡ is_active_edge state.plan picks key) →
        AreAllSettled state picks (chosen_edges table chosen) }
{}

/// An optimal circulation over all settled edges of a branch is worth, with the picks of the branch, what the
/// proposal costs that takes its potentials, where these keep each edge that isn't loose.
pub fn optimal_circulations_are_worth_their_proposal()
    ensures { (state : State) (branch : List Pick) (edges : Edges) (units : Units)
        (potentials : ℕ → ℤ) → IsSound state.plan → AreAllSettled state branch edges →
        IsCirculation PLACES edges units → IsOptimal edges units potentials →
        AreKept (firm_edges edges) potentials →
        worth_with state.plan branch edges units
        ≡ pos (cost state.plan 1 (proposal_at state.plan 1 branch potentials)) }
{}
