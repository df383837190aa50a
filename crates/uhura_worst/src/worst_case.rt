//! The worst case, both ways. A proposal meets the requirements whatever the durations left exactly where times of
//! all nodes meet the loosened edges: those of its events, with the two ends of each duration at the least and at the
//! greatest length left to it. Each contract is a law over the definitions, and the bodies are empty.
ghost use Rattle.std.specs.Prelude.{◌≡◌, ℕ, ◌≤◌, ℤ, ◌↔◌, List, IsFalse};
ghost use Rattle.uhura_plan.specs.Lists.{Lists};
ghost use Rattle.uhura_plan.specs.Sound.{IsSound};
ghost use Rattle.uhura_choice.specs.declared.prefix.Pick.{Pick};
ghost use Rattle.uhura_choice.specs.Branch.{IsBranch};
ghost use Rattle.uhura_net.specs.declared.place.Place.{Place};
ghost use Rattle.uhura_net.specs.Edges.{Edges};
ghost use Rattle.uhura_net.specs.Walk.{IsNegativeWalk};
ghost use Rattle.uhura_veto.specs.State.{State};
ghost use Rattle.uhura_veto.specs.Denial.{is_denied};
ghost use Rattle.uhura_worst.specs.Allowed.{Allowed};
ghost use Rattle.uhura_worst.specs.Proposal.{Proposal, CoversAllDurations};
ghost use Rattle.uhura_worst.specs.WorstCase.{HasTimesOf, AreExtremes, LeavesRanges, MeetsWorstCase};
ghost use Rattle.uhura_worst.specs.WorstCase.{extreme_times, KeepsFirmEdges, AreFirmEdges, proposal_at};

/// Where some times of the nodes meet the loosened edges, the events meet the requirements for all durations left:
/// each end comes between the times of its two nodes.
pub fn times_that_meet_edges_cover_all_durations()
    ensures { (plan : Lists) (k : ℕ) (q : Proposal) (times : ℕ → ℤ) → IsSound plan →
        HasTimesOf plan q times → MeetsWorstCase plan k q times → CoversAllDurations plan k q }
{}

/// Where the events meet the requirements for all durations left, the extreme times meet the loosened edges: for each
/// requirement let one of its events come as late and the other as early as it can.
pub fn extreme_times_meet_edges()
    ensures { (plan : Lists) (k : ℕ) (q : Proposal) (times : ℕ → ℤ) → IsSound plan →
        LeavesRanges plan k q → AreExtremes plan k q times → CoversAllDurations plan k q →
        MeetsWorstCase plan k q times }
{}

/// Each proposal has extreme times, so it meets the requirements exactly where they meet its worst case.
pub fn worst_case_is_exact()
    ensures extremes { (plan : Lists) (k : ℕ) (q : Proposal) → IsSound plan →
        AreExtremes plan k q (extreme_times plan k q) }
    ensures exact { (plan : Lists) (k : ℕ) (q : Proposal) → IsSound plan → LeavesRanges plan k q →
        CoversAllDurations plan k q ↔ MeetsWorstCase plan k q (extreme_times plan k q) }
{}

/// Where a proposal is allowed, whole or in k-ths, its extreme times keep each edge that is there, active in its
/// branch and not loose.
pub fn allowed_proposals_keep_firm_edges()
    ensures { (state : State) (k : ℕ) (q : Proposal) → IsSound state.plan → Allowed state k q →
        KeepsFirmEdges state k q.branch (extreme_times state.plan k q) }
{}

/// So where a proposal is allowed in a branch, no such edges make a closed walk whose bounds sum below 0.
pub fn allowed_proposals_leave_no_negative_walk()
    ensures { (state : State) (k : ℕ) (q : Proposal) (edges : Edges) (places : List Place) →
        IsSound state.plan → Allowed state k q → AreFirmEdges state q.branch edges →
        IsNegativeWalk edges places → ⊥ }
{}

/// Where times of the nodes keep each edge that is there, active in a branch of the plan that isn't denied, and not
/// loose, the proposal that takes them is allowed: it loosens and narrows each side by as much as they pass it.
pub fn times_that_keep_firm_edges_are_allowed()
    ensures { (state : State) (k : ℕ) (branch : List Pick) (times : ℕ → ℤ) → IsSound state.plan →
        1 ≤ k → IsBranch state.plan.choices branch → IsFalse (is_denied state.vetoes branch) →
        KeepsFirmEdges state k branch times →
        Allowed state k (proposal_at state.plan k branch times) }
{}

/// What is allowed in parts is allowed in whole units: since bounds are whole, the times may be rounded down, in the
/// same branch.
pub fn allowed_parts_leave_an_allowed_whole()
    ensures { (state : State) (k : ℕ) (q : Proposal) → IsSound state.plan → Allowed state k q →
        (whole : Proposal) × Allowed state 1 whole × (whole.branch ≡ q.branch) }
{}
