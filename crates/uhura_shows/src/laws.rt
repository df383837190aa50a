//! What leaves show of the proposals that are allowed, and how prefixes are known to cover the branches. Each
//! contract is a law over the definitions, and the bodies are empty.
ghost use Rattle.std.specs.Prelude.{ℕ, pos, ◌*ℤ◌, ◌≤ℤ◌, IsTrue, map, List, [], ◌∷◌, ◌++◌, Option, Some, None, Contains, ◌↔◌, ◌⊎◌};
ghost use Rattle.uhura_plan.specs.Lists.{Lists};
ghost use Rattle.uhura_plan.specs.Sound.{IsSound};
ghost use Rattle.uhura_plan.specs.declared.key.EdgeKey.{EdgeKey};
ghost use Rattle.uhura_plan.specs.declared.choice.Choice.{Choice};
ghost use Rattle.uhura_choice.specs.declared.prefix.Pick.{Pick};
ghost use Rattle.uhura_choice.specs.Branch.{IsBranch, IsPrefix, IsEarlier};
ghost use Rattle.uhura_choice.specs.Order.{IsFrontOf};
ghost use Rattle.uhura_choice.specs.Children.{children};
ghost use Rattle.uhura_choice.specs.Walk.{IsFirstBranch, IsFirstFrom};
ghost use Rattle.uhura_veto.specs.State.{State};
ghost use Rattle.uhura_worst.specs.Proposal.{Proposal};
ghost use Rattle.uhura_worst.specs.Allowed.{Allowed};
ghost use Rattle.uhura_worst.specs.Cost.{cost};
ghost use Rattle.uhura_worst.specs.Best.{IsCheapest, IsFirst};
ghost use Rattle.uhura_shows.specs.Leaf.{LeafShown};
ghost use Rattle.uhura_shows.specs.Cover.{IsCover, Covers};
ghost use Rattle.uhura_shows.specs.Behind.{IsBehind, CoversUpTo, ComesBefore};
ghost use Rattle.uhura_shows.specs.Carried.{AreSettledKeys, IsKeyedCirculation};
ghost use Rattle.uhura_shows.specs.Shows.{is_denied_by, IsStuckBy, shown_cost, Shows};

/// Each leaf bounds what is allowed in its own branches, and needs no other leaf for it. At every scale k, k times the
/// value of units on edges that are settled active in its prefix and the costs picked there is at most the cost; and
/// nothing is allowed where a walk sums below 0, or where a denial has all its literals picked.
pub fn leaves_bound_their_own_branches()
    ensures units { (state : State) (prefix : List Pick) (pairs : List (EdgeKey × ℕ))
        (k : ℕ) (q : Proposal) → IsSound state.plan → IsKeyedCirculation state pairs →
        AreSettledKeys state prefix (map (λ pair. pair.0) pairs) →
        Allowed state k q → IsFrontOf prefix q.branch →
        (pos k *ℤ shown_cost state prefix pairs) ≤ℤ pos (cost state.plan k q) }
    ensures walk { (state : State) (prefix : List Pick) (keys : List EdgeKey)
        (k : ℕ) (q : Proposal) → IsSound state.plan → IsStuckBy state prefix keys →
        Allowed state k q → IsFrontOf prefix q.branch → ⊥ }
    ensures denial { (state : State) (prefix : List Pick) (veto k : ℕ) (q : Proposal) →
        IsTrue (is_denied_by state prefix veto) →
        Allowed state k q → IsFrontOf prefix q.branch → ⊥ }
{}

/// Leaves that show the branch and the cost of a proposal that is allowed in whole units show that nothing that is
/// allowed, whole or in k-ths, costs less, and that nothing that costs the same has an earlier branch.
pub fn leaves_show_the_first_of_the_cheapest()
    ensures cheapest { (state : State) (p : Proposal) (leaves : List LeafShown) →
        IsSound state.plan → Allowed state 1 p →
        Shows state (Some (p.branch, cost state.plan 1 p)) leaves → IsCheapest state p }
    ensures first { (state : State) (p : Proposal) (leaves : List LeafShown) →
        IsSound state.plan → Allowed state 1 p →
        Shows state (Some (p.branch, cost state.plan 1 p)) leaves → IsFirst state p }
{}

/// Leaves that show no proposal show that nothing is allowed, whole or in k-ths.
pub fn leaves_show_that_nothing_is_allowed()
    ensures { (state : State) (k : ℕ) (q : Proposal) (leaves : List LeafShown) →
        IsSound state.plan → Shows state None leaves → Allowed state k q → ⊥ }
{}

/// Covers are joined to covers. Nothing covers nothing, and a prefix covers itself; covers of tops that come after
/// one another are one cover of them all; what covers the children of a prefix covers the prefix; what covers a
/// prefix may stand in its place, and the prefix in theirs; and what covers the empty prefix, which begins every
/// branch, is a cover of the branches.
pub fn covers_are_joined()
    ensures nothing { (choices : List Choice) → Covers choices [] [] }
    ensures itself { (choices : List Choice) (prefix : List Pick) → IsPrefix choices prefix →
        Covers choices (prefix ∷ []) (prefix ∷ []) }
    ensures appended { (choices : List Choice) (tops others prefixes more : List (List Pick)) →
        Covers choices tops prefixes → Covers choices others more →
        ((top other : List Pick) → Contains tops top → Contains others other →
        IsEarlier top other) →
        Covers choices (tops ++ others) (prefixes ++ more) }
    ensures up { (plan : Lists) (prefix : List Pick) (prefixes : List (List Pick)) →
        IsSound plan → IsPrefix plan.choices prefix → (IsBranch plan.choices prefix → ⊥) →
        Covers plan.choices (children plan.choices prefix) prefixes →
        Covers plan.choices (prefix ∷ []) prefixes }
    ensures refined { (choices : List Choice) (tops before after : List (List Pick))
        (prefix : List Pick) (prefixes : List (List Pick)) →
        Covers choices tops (before ++ prefix ∷ after) → Covers choices (prefix ∷ []) prefixes →
        Covers choices tops (before ++ (prefixes ++ after)) }
    ensures merged { (choices : List Choice) (before prefixes after : List (List Pick))
        (prefix : List Pick) → IsCover choices (before ++ (prefixes ++ after)) →
        Covers choices (prefix ∷ []) prefixes → IsPrefix choices prefix →
        IsCover choices (before ++ prefix ∷ after) }
    ensures all { (choices : List Choice) (prefixes : List (List Pick)) →
        Covers choices ([] ∷ []) prefixes ↔ IsCover choices prefixes }
{}

/// A walk over prefixes shows whether they are a cover. It begins with none and the first branch; a prefix whose
/// first branch is the next one leads to the branch behind it; and with no next branch the prefixes are a cover.
/// Prefixes are one only so: where they aren't yet, the next of them is such a prefix, and where they are, there is
/// none.
pub fn covers_are_walked()
    ensures begins { (choices : List Choice) (first : List Pick) → IsFirstBranch choices first →
        CoversUpTo choices [] (Some first) }
    ensures goes_on { (choices : List Choice) (so_far : List (List Pick))
        (next prefix : List Pick) (later : Option (List Pick)) →
        CoversUpTo choices so_far (Some next) → IsFirstFrom choices prefix next →
        IsBehind choices prefix later → CoversUpTo choices (so_far ++ prefix ∷ []) later }
    ensures ends { (choices : List Choice) (prefixes : List (List Pick)) →
        CoversUpTo choices prefixes None → IsCover choices prefixes }
    ensures not_yet { (choices : List Choice) (prefixes : List (List Pick)) (next : List Pick) →
        CoversUpTo choices prefixes (Some next) → IsCover choices prefixes → ⊥ }
    ensures only_so { (choices : List Choice) (so_far rest : List (List Pick))
        (prefix next : List Pick) → IsCover choices (so_far ++ prefix ∷ rest) →
        CoversUpTo choices so_far (Some next) → IsFirstFrom choices prefix next }
    ensures no_more { (choices : List Choice) (so_far rest : List (List Pick))
        (prefix : List Pick) → IsCover choices (so_far ++ prefix ∷ rest) →
        CoversUpTo choices so_far None → ⊥ }
{}

/// A walk over branches may pass all those of a prefix at once: each branch before the one behind the prefix, and
/// each at all where there is none, comes before the branch at which it stood, or has the prefix.
pub fn branches_of_a_prefix_are_passed()
    ensures { (choices : List Choice) (prefix branch : List Pick) (later : Option (List Pick))
        (other : List Pick) → IsBranch choices branch → IsFrontOf prefix branch →
        IsBehind choices prefix later → IsBranch choices other → ComesBefore other later →
        IsEarlier other branch ⊎ IsFrontOf prefix other }
{}
