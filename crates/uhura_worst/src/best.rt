//! What two best proposals have in common. Each contract is a law over the definitions, and the bodies are empty.
ghost use Rattle.std.specs.Prelude.{◌≡◌, ℕ, ◌<◌, length};
ghost use Rattle.uhura_plan.specs.Sound.{IsSound};
ghost use Rattle.uhura_veto.specs.State.{State};
ghost use Rattle.uhura_worst.specs.Proposal.{Proposal};
ghost use Rattle.uhura_worst.specs.Cost.{cost};
ghost use Rattle.uhura_worst.specs.Best.{IsBest, AllowsNothing};
ghost use Rattle.uhura_worst.specs.Slots.{IsSameButForSlots};

/// Two best proposals for one state cost the same and have one branch, and where they have the same units, they have
/// the same times.
pub fn best_is_settled()
    ensures same_cost { (state : State) (p q : Proposal) → IsBest state p → IsBest state q →
        cost state.plan 1 p ≡ cost state.plan 1 q }
    ensures same_branch { (state : State) (p q : Proposal) → IsBest state p → IsBest state q →
        p.branch ≡ q.branch }
    ensures same_times { (state : State) (p q : Proposal) → IsBest state p → IsBest state q →
        p.units ≡ q.units → (e : ℕ) → e < length state.plan.events → p.times e ≡ q.times e }
{}

/// The slots of requirements settle nothing: best proposals for two states that are the same but for these cost the
/// same and have one branch, and where nothing is allowed for the one, nothing is for the other.
pub fn slots_settle_nothing()
    ensures same_cost { (a b : State) (p q : Proposal) → IsSound a.plan → IsSound b.plan →
        IsSameButForSlots a b → IsBest a p → IsBest b q → cost a.plan 1 p ≡ cost b.plan 1 q }
    ensures same_branch { (a b : State) (p q : Proposal) → IsSound a.plan → IsSound b.plan →
        IsSameButForSlots a b → IsBest a p → IsBest b q → p.branch ≡ q.branch }
    ensures nothing { (a b : State) → IsSound a.plan → IsSameButForSlots a b →
        AllowsNothing a → AllowsNothing b }
{}
