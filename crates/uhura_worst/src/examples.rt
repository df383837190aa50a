//! The definitions tried on worked plans: each contract is a fact about one of the plans of
//! `specs/Examples.antt`, and the bodies are empty.
ghost use Rattle.std.specs.Prelude.{◌≡◌, None, Some, ◌∷◌, [], codes, pos, negsuc};
ghost use Rattle.uhura_choice.specs.declared.prefix.Pick.TheVariants.{Alternative, Inactive};
ghost use Rattle.uhura_choice.specs.Branch.{IsBranch};
ghost use Rattle.uhura_plan.specs.declared.key.Side.TheVariants.{Lower, Upper};
ghost use Rattle.uhura_plan.specs.declared.key.EdgeKey.TheVariants.{Loose, Firm, Order, Steep};
ghost use Rattle.uhura_veto.specs.declared.veto.Veto.TheVariants.{Cap};
ghost use Rattle.uhura_veto.specs.declared.room.Room.TheVariants.{Units};
ghost use Rattle.uhura_veto.specs.Room.{requirement_room, duration_room};
ghost use Rattle.uhura_worst.specs.Allowed.{Allowed};
ghost use Rattle.uhura_worst.specs.Cost.{cost};
ghost use Rattle.uhura_worst.specs.Best.{IsFirst, IsBest, AllowsNothing};
ghost use Rattle.uhura_worst.specs.Edges.{edge_of};
ghost use Rattle.uhura_worst.specs.Examples.{evening_drive, dinner_later, squeezed, narrowed_to_nothing};
ghost use Rattle.uhura_worst.specs.Examples.{two_sides, by_left, by_right, capped_drive, later_and_cut};
ghost use Rattle.uhura_worst.specs.Examples.{rising_evening, rising_cut, rising_from_below};
ghost use Rattle.uhura_worst.specs.Examples.{two_drives, gap_by, drives_apart, at_zero, drive_to_film, film_at};
ghost use Rattle.uhura_worst.specs.Examples.{dining, dine, stretch, not_after, dinner_at_most, pinned, pinned_by};
ghost use Rattle.uhura_worst.specs.Examples.{requirement_side, duration_side, edge, firm};

/// Dinner 10 minutes later is allowed and costs 20; 9 minutes aren't enough for the longest drive.
pub fn longest_drive_counts()
    ensures allowed { Allowed evening_drive 1 (dinner_later 10) }
    ensures cost { cost evening_drive.plan 1 (dinner_later 10) ≡ 20 }
    ensures too_little { Allowed evening_drive 1 (dinner_later 9) → ⊥ }
{}

/// A duration can't be narrowed until nothing is left of it.
pub fn something_is_left()
    ensures nothing { Allowed squeezed 1 narrowed_to_nothing → ⊥ }
    ensures cost { cost squeezed.plan 1 narrowed_to_nothing ≡ 30 }
{}

/// Of two allowed branches that cost the same, the later one is not the answer.
pub fn first_branch_wins()
    ensures left { Allowed two_sides 1 by_left }
    ensures right { Allowed two_sides 1 by_right }
    ensures same_cost { cost two_sides.plan 1 by_left ≡ cost two_sides.plan 1 by_right }
    ensures not_first { IsFirst two_sides by_right → ⊥ }
{}

/// With dinner capped at 6 and at 4 minutes later the answer takes the 4 and cuts the drive by the other 6.
pub fn cap_is_kept()
    ensures best { IsBest capped_drive (later_and_cut 4 6) }
    ensures cost { cost capped_drive.plan 1 (later_and_cut 4 6) ≡ 26 }
    ensures beyond_cap { Allowed capped_drive 1 (later_and_cut 5 5) → ⊥ }
{}

/// In halves a cap of 4 leaves room for 8 and no more, and a cost is twice what it is in whole units.
pub fn halves_are_counted()
    ensures allowed { Allowed capped_drive 2 (later_and_cut 7 13) }
    ensures cost { cost capped_drive.plan 2 (later_and_cut 7 13) ≡ 53 }
    ensures beyond_cap { Allowed capped_drive 2 (later_and_cut 9 11) → ⊥ }
    ensures picks_cost { cost dining.plan 2 (dine (Alternative 1) (Alternative 1)) ≡ 28 }
{}

/// Dinner later at 2 a minute for 4 minutes and at 5 past them: the answer takes the 4 and cuts the drive by the
/// other 6. The second price counts for the minutes past the 4 alone, and there in place of the first, not beside it.
pub fn second_price_counts_past_the_first()
    ensures best { IsBest rising_evening (later_and_cut 4 6) }
    ensures cost { cost rising_evening.plan 1 (later_and_cut 4 6) ≡ 26 }
    ensures one_past { cost rising_evening.plan 1 (later_and_cut 5 0) ≡ 13 }
    ensures all_later { cost rising_evening.plan 1 (later_and_cut 10 0) ≡ 38 }
{}

/// In halves the first price covers twice as many.
pub fn second_price_counts_in_halves()
    ensures covered { cost rising_evening.plan 2 (later_and_cut 8 0) ≡ 16 }
    ensures one_past { cost rising_evening.plan 2 (later_and_cut 9 0) ≡ 21 }
    ensures narrowed { cost rising_cut.plan 2 (later_and_cut 0 11) ≡ 14 }
{}

/// A duration that may be cut at 1 for 5 units and at 4 past them is cut by the 5, and its end comes later by the
/// other 7 at 3 each.
pub fn duration_is_cut_up_to_its_second_price()
    ensures best { IsBest rising_cut (later_and_cut 7 5) }
    ensures cost { cost rising_cut.plan 1 (later_and_cut 7 5) ≡ 26 }
    ensures one_past { cost rising_cut.plan 1 (later_and_cut 6 6) ≡ 27 }
{}

/// Each of two drives takes any of its lengths, whatever the other takes: their ends are 10 to 40 apart.
pub fn drives_vary_apart()
    ensures best { IsBest two_drives (gap_by 5 5) }
    ensures cost { cost two_drives.plan 1 (gap_by 5 5) ≡ 10 }
    ensures in_halves { Allowed two_drives 2 (gap_by 10 10) }
    ensures too_little { Allowed two_drives 1 (gap_by 5 4) → ⊥ }
{}

/// The bounds have to hold the whole range of the difference of two uncertain ends: one unit less than that leaves
/// nothing.
pub fn whole_difference_counts()
    ensures allowed { Allowed (drives_apart 40) 1 (at_zero [] []) }
    ensures nothing { AllowsNothing (drives_apart 39) }
{}

/// A film that waits for the longest drive is allowed; one minute less than that leaves nothing, though most drives
/// are shorter.
pub fn longest_drive_decides()
    ensures allowed { Allowed (drive_to_film 50) 1 (film_at 50) }
    ensures nothing { AllowsNothing (drive_to_film 49) }
{}

/// The tables of a drive and of a dinner that may come later at a price without limit.
pub fn tables_are_read()
    ensures dinner_loose { edge_of evening_drive (Loose (requirement_side 0 Upper))
        ≡ Some (edge 0 513 (pos 40) 2) }
    ensures dinner_firm { edge_of evening_drive (Firm (requirement_side 0 Upper)) ≡ None }
    ensures no_bound { edge_of evening_drive (Firm (requirement_side 0 Lower)) ≡ None }
    ensures no_price { edge_of evening_drive (Loose (duration_side 0 Lower)) ≡ None }
    ensures shortest { edge_of evening_drive (Firm (duration_side 0 Lower))
        ≡ Some (firm 0 512 (pos 30)) }
    ensures longest { edge_of evening_drive (Loose (duration_side 0 Upper))
        ≡ Some (edge 513 0 (negsuc 49) 3) }
    ensures narrowed { edge_of evening_drive (Firm (duration_side 0 Upper))
        ≡ Some (firm 513 0 (negsuc 29)) }
    ensures order { edge_of evening_drive (Order 0) ≡ Some (firm 513 512 (pos 0)) }
    ensures early { edge_of (drives_apart 40) (Firm (requirement_side 0 Lower))
        ≡ Some (firm 514 513 (negsuc 9)) }
    ensures late { edge_of (drives_apart 40) (Firm (requirement_side 0 Upper))
        ≡ Some (firm 512 515 (pos 40)) }
{}

/// A side with a second price has a steep edge besides: between the nodes of its loose edge, with the bound moved by
/// the units that the first price covers, and what the second is above the first for its capacity.
pub fn steep_edges_are_read()
    ensures one_price { edge_of evening_drive (Steep (requirement_side 0 Upper)) ≡ None }
    ensures loose { edge_of rising_evening (Loose (requirement_side 0 Upper))
        ≡ Some (edge 0 513 (pos 40) 2) }
    ensures later { edge_of rising_evening (Steep (requirement_side 0 Upper))
        ≡ Some (edge 0 513 (pos 44) 3) }
    ensures shorter { edge_of rising_cut (Steep (duration_side 0 Upper))
        ≡ Some (edge 513 0 (negsuc 14) 3) }
    ensures no_second { edge_of rising_cut (Steep (requirement_side 0 Upper)) ≡ None }
    ensures sooner { edge_of rising_from_below (Steep (requirement_side 0 Lower))
        ≡ Some (edge 512 0 (negsuc 12) 3) }
    ensures longer { edge_of rising_from_below (Steep (duration_side 0 Lower))
        ≡ Some (edge 0 512 (pos 15) 3) }
{}

/// A choice is inactive exactly where its guard isn't picked. It then costs nothing, none of its alternatives may be
/// picked, and no denial of one counts.
pub fn inactive_choice_is_free()
    ensures best { IsBest dining (dine (Alternative 0) Inactive) }
    ensures cost { cost dining.plan 1 (dine (Alternative 0) Inactive) ≡ 0 }
    ensures picked { IsBranch dining.plan.choices (dine (Alternative 0) (Alternative 1)).branch
        → ⊥ }
    ensures skipped { IsBranch dining.plan.choices (dine (Alternative 1) Inactive).branch → ⊥ }
    ensures unknown { IsBranch dining.plan.choices (dine (Alternative 1) (Alternative 2)).branch
        → ⊥ }
    ensures denied { Allowed dining 1 (dine (Alternative 1) (Alternative 0)) → ⊥ }
    ensures not_denied { Allowed dining 1 (dine (Alternative 1) (Alternative 1)) }
{}

/// A duration that has to take 15 is narrowed at both ends, each at its own rate.
pub fn both_ends_are_narrowed()
    ensures best { IsBest pinned (pinned_by 5 5) }
    ensures cost { cost pinned.plan 1 (pinned_by 5 5) ≡ 25 }
{}

/// A cap makes no room where a side has no price, and a room is the least of what limits it.
pub fn room_is_least()
    ensures unpriced { requirement_room (Cap (codes "v") (requirement_side 1 Upper) 5 ∷ [])
        Upper not_after ≡ Units 0 }
    ensures most { requirement_room [] Upper dinner_at_most ≡ Units 3 }
    ensures width { duration_room [] 0 Upper stretch ≡ Units 10 }
    ensures capped { duration_room (Cap (codes "v") (duration_side 0 Upper) 7 ∷ []) 0 Upper stretch
        ≡ Units 7 }
{}
