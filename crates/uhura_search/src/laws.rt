//! What an answer says of all proposals. Each contract is a law over the definitions, and the bodies are empty.
ghost use Rattle.std.specs.Prelude.{◌≡◌, ℕ, ℤ, List, None};
ghost use Rattle.uhura_plan.specs.Sound.{IsSound};
ghost use Rattle.uhura_choice.specs.declared.prefix.Pick.{Pick};
ghost use Rattle.uhura_net.specs.Edges.{time_at};
ghost use Rattle.uhura_veto.specs.State.{State};
ghost use Rattle.uhura_worst.specs.Proposal.{Proposal};
ghost use Rattle.uhura_worst.specs.Allowed.{Allowed};
ghost use Rattle.uhura_worst.specs.WorstCase.{proposal_at};
ghost use Rattle.uhura_worst.specs.Best.{IsCheapest, IsFirst};
ghost use Rattle.uhura_shows.specs.Shows.{Shows};
ghost use Rattle.uhura_search.specs.declared.leaf.LeafNote.{LeafNote};
ghost use Rattle.uhura_search.specs.Answer.{IsFoundFor, shown_leaves};

/// What is read off the potentials of an answer is allowed in whole units; nothing that is allowed, whole or in
/// k-ths, costs less, and nothing that costs the same has an earlier branch.
pub fn found_answers_are_the_first_of_the_cheapest()
    ensures cheapest { (state : State) (branch : List Pick) (all : ℕ) (potentials : List ℤ)
        (leaves : List LeafNote) → IsSound state.plan →
        IsFoundFor state branch all potentials leaves →
        IsCheapest state (proposal_at state.plan 1 branch (time_at potentials)) }
    ensures first { (state : State) (branch : List Pick) (all : ℕ) (potentials : List ℤ)
        (leaves : List LeafNote) → IsSound state.plan →
        IsFoundFor state branch all potentials leaves →
        IsFirst state (proposal_at state.plan 1 branch (time_at potentials)) }
{}

/// Where there is no answer, nothing is allowed, whole or in k-ths.
pub fn without_an_answer_nothing_is_allowed()
    ensures { (state : State) (k : ℕ) (q : Proposal) (leaves : List LeafNote) →
        IsSound state.plan → Shows state None (shown_leaves state leaves) →
        Allowed state k q → ⊥ }
{}
