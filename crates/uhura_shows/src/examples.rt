//! The definitions tried on leaves of worked plans: each contract is a fact about leaves of `specs/Examples.antt`,
//! and the bodies are empty.
ghost use Rattle.std.specs.Prelude.{◌≡◌, ◌*◌, None, Some, [], ◌∷◌};
ghost use Rattle.uhura_choice.specs.Branch.{IsEarlier};
ghost use Rattle.uhura_plan.specs.declared.key.Side.TheVariants.{Lower, Upper};
ghost use Rattle.uhura_plan.specs.declared.key.EdgeKey.TheVariants.{Loose, Firm};
ghost use Rattle.uhura_worst.specs.Allowed.{Allowed};
ghost use Rattle.uhura_worst.specs.Cost.{cost};
ghost use Rattle.uhura_worst.specs.Best.{IsCheapest, IsFirst};
ghost use Rattle.uhura_worst.specs.Examples.{two_sides, by_left, capped_drive, rising_evening, requirement_side};
ghost use Rattle.uhura_shows.specs.Shows.{Answer, Shows};
ghost use Rattle.uhura_shows.specs.Examples.{denied, flow, stuck, left, right, clash_by, both_sides};
ghost use Rattle.uhura_shows.specs.Examples.{drive_leaf, rising_leaf, both_denied, clashing};
ghost use Rattle.uhura_shows.specs.Evening.{evening, without_thai, first_answer, second_answer, first_leaves, second_leaves};
ghost use Rattle.uhura_shows.specs.Examples.{cheap_or_dear, dear_x, dear_y, cheap_leaf, right_in_halves};

/// The leaves of two sides that both cost 5 show that the left one does, and no more than that. They don't show the
/// right one, since the left one comes before it and costs as little.
pub fn two_leaves_show_the_first_branch()
    ensures shown { Shows two_sides (Some (left, 5)) (both_sides (clash_by 1 1)) }
    ensures no_more { Shows two_sides (Some (left, 6)) (both_sides (clash_by 1 1)) → ⊥ }
    ensures not_later { Shows two_sides (Some (right, 5)) (both_sides (clash_by 1 1)) → ⊥ }
{}

/// Each branch has exactly one leaf, and the leaves stand in the order of the branches.
pub fn each_branch_has_one_leaf()
    ensures missing { (answer : Answer) → Shows two_sides answer (flow left [] ∷ []) → ⊥ }
    ensures twice { (answer : Answer) → Shows two_sides answer (flow left [] ∷
        both_sides (clash_by 1 1)) → ⊥ }
    ensures above { (answer : Answer) → Shows two_sides answer (flow [] [] ∷
        both_sides (clash_by 1 1)) → ⊥ }
    ensures out_of_order { (answer : Answer) → Shows two_sides answer (flow right (clash_by 1 1) ∷
        flow left [] ∷ []) → ⊥ }
{}

/// Units pass no capacity, are balanced at each node, name no edge twice, and are on edges that are settled active in
/// the prefix.
pub fn units_are_a_circulation_of_settled_edges()
    ensures above { Shows two_sides (Some (left, 5)) (both_sides (clash_by 2 2)) → ⊥ }
    ensures unbalanced { Shows two_sides (Some (left, 5)) (both_sides (clash_by 1 2)) → ⊥ }
    ensures twice { Shows two_sides (Some (left, 5)) (both_sides
        ((Loose (requirement_side 0 Upper), 1) ∷ (Loose (requirement_side 0 Upper), 1)
        ∷ (Firm (requirement_side 1 Lower), 2) ∷ [])) → ⊥ }
    ensures inactive { Shows two_sides (Some (left, 5)) (flow left (clash_by 1 1)
        ∷ flow right (clash_by 1 1) ∷ []) → ⊥ }
    ensures no_edge { Shows two_sides (Some (left, 5)) (both_sides
        ((Loose (requirement_side 0 Lower), 0) ∷ clash_by 1 1)) → ⊥ }
{}

/// The leaf of the capped drive shows 26. One unit less on dinner as stated, in place of its cap, shows 22.
pub fn drive_has_one_leaf()
    ensures shown { Shows capped_drive (Some ([], 26)) (drive_leaf 2 1 3 ∷ []) }
    ensures too_little { Shows capped_drive (Some ([], 26)) (drive_leaf 1 2 3 ∷ []) → ⊥ }
    ensures above { Shows capped_drive (Some ([], 26)) (drive_leaf 2 1 4 ∷ []) → ⊥ }
    ensures unbalanced { Shows capped_drive (Some ([], 26)) (drive_leaf 2 1 2 ∷ []) → ⊥ }
{}

/// A steep edge carries what the second price is above the first, and no more.
pub fn second_price_is_shown()
    ensures shown { Shows rising_evening (Some ([], 26)) (rising_leaf 2 1 3 ∷ []) }
    ensures no_more { Shows rising_evening (Some ([], 27)) (rising_leaf 2 1 3 ∷ []) → ⊥ }
    ensures first_alone { Shows rising_evening (Some ([], 26)) (rising_leaf 3 0 3 ∷ []) → ⊥ }
    ensures above { Shows rising_evening (Some ([], 26)) (rising_leaf 0 4 4 ∷ []) → ⊥ }
{}

/// Where both alternatives are denied, a leaf for each names its denial: not that of the other, and no cap.
pub fn denials_show_that_nothing_is_allowed()
    ensures shown { Shows both_denied None (denied left 0 ∷ denied right 1 ∷ []) }
    ensures other { Shows both_denied None (denied left 0 ∷ denied right 0 ∷ []) → ⊥ }
    ensures cap { Shows both_denied None (denied left 0 ∷ denied right 2 ∷ []) → ⊥ }
    ensures missing { Shows both_denied None (denied left 0 ∷ denied right 3 ∷ []) → ⊥ }
{}

/// Two bounds that clash make a closed walk whose bounds sum below 0. A walk has edges and closes, and units show
/// nothing where there is no proposal.
pub fn clash_shows_that_nothing_is_allowed()
    ensures shown { Shows clashing None (stuck [] (Firm (requirement_side 0 Lower)
        ∷ Firm (requirement_side 1 Upper) ∷ []) ∷ []) }
    ensures no_edges { Shows clashing None (stuck [] [] ∷ []) → ⊥ }
    ensures open { Shows clashing None (stuck [] (Firm (requirement_side 0 Lower) ∷ []) ∷ []) → ⊥ }
    ensures no_proposal { Shows clashing None (flow [] [] ∷ []) → ⊥ }
{}

/// A loose edge is no part of a walk.
pub fn loose_edges_show_no_clash()
    ensures { Shows two_sides (Some (left, 5)) (flow left []
        ∷ stuck right (Loose (requirement_side 0 Upper) ∷ Firm (requirement_side 1 Lower) ∷ [])
        ∷ []) → ⊥ }
{}

/// A leaf may end before the last choice, but not with a proper prefix of the answer's branch.
pub fn leaf_covers_the_branches_of_its_prefix()
    ensures shown { Shows cheap_or_dear (Some (dear_x, 4))
        (cheap_leaf ∷ flow dear_x [] ∷ flow dear_y [] ∷ []) }
    ensures proper { Shows cheap_or_dear (Some (dear_x, 4)) (cheap_leaf ∷ flow right [] ∷ []) → ⊥ }
{}

/// The answer to the first question of an evening with three choices is allowed, and shown by leaves of which some
/// end before the last choice. So it is the cheapest, and the first of those that cost as much.
pub fn evening_has_its_first_answer()
    ensures allowed { Allowed evening 1 first_answer }
    ensures cost { cost evening.plan 1 first_answer ≡ 10 }
    ensures shown { Shows evening (Some (first_answer.branch, 10)) first_leaves }
    ensures cheapest { IsCheapest evening first_answer }
    ensures first { IsFirst evening first_answer }
    ensures no_more { Shows evening (Some (first_answer.branch, 11)) first_leaves → ⊥ }
{}

/// Where the second restaurant is denied, the evening has another answer; its leaves show nothing where it isn't.
pub fn evening_has_its_second_answer()
    ensures allowed { Allowed without_thai 1 second_answer }
    ensures cost { cost without_thai.plan 1 second_answer ≡ 35 }
    ensures shown { Shows without_thai (Some (second_answer.branch, 35)) second_leaves }
    ensures cheapest { IsCheapest without_thai second_answer }
    ensures first { IsFirst without_thai second_answer }
    ensures not_denied { Shows evening (Some (second_answer.branch, 35)) second_leaves → ⊥ }
{}

/// In halves the right side costs twice as much as the left one does in whole units: no less, and it is later. So the
/// leaves of both sides show that the left one is the answer.
pub fn halves_cost_no_less()
    ensures allowed { Allowed two_sides 2 right_in_halves }
    ensures same_cost { cost two_sides.plan 2 right_in_halves ≡ 2 * cost two_sides.plan 1 by_left }
    ensures later { IsEarlier by_left.branch right_in_halves.branch }
    ensures cheapest { IsCheapest two_sides by_left }
    ensures first { IsFirst two_sides by_left }
{}
