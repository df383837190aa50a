//! The definitions tried on worked plans: each contract is a fact about one of the plans of `specs/Examples.antt` and
//! of uhura_worst, and the bodies are empty.
ghost use Rattle.std.specs.Prelude.{◌≡◌, ℕ, ◌*◌, ◌≤◌, ◌∷◌, [], pos};
ghost use Rattle.uhura_plan.specs.declared.key.Side.TheVariants.{Lower, Upper};
ghost use Rattle.uhura_plan.specs.declared.key.EdgeKey.TheVariants.{Loose, Firm, Order, Steep};
ghost use Rattle.uhura_plan.specs.Sound.{IsSound};
ghost use Rattle.uhura_choice.specs.declared.prefix.Pick.TheVariants.{Alternative};
ghost use Rattle.uhura_net.specs.declared.place.TheConstants.{PLACES};
ghost use Rattle.uhura_net.specs.Circulation.{IsCirculation};
ghost use Rattle.uhura_worst.specs.Proposal.{Proposal};
ghost use Rattle.uhura_worst.specs.Allowed.{Allowed};
ghost use Rattle.uhura_worst.specs.Cost.{cost};
ghost use Rattle.uhura_worst.specs.Examples.{evening_drive, rising_evening, rising_from_below, two_sides};
ghost use Rattle.uhura_worst.specs.Examples.{later_and_cut, requirement_side, duration_side};
ghost use Rattle.uhura_dual.specs.Settled.{key_at, settled_edges, worth_with};
ghost use Rattle.uhura_dual.specs.ReadOff.{passed_sides, read_off};
ghost use Rattle.uhura_dual.specs.Examples.{ends_at, even_drive, around_drive};

/// Where the drive ends at 50 at the latest, dinner is passed by 10; where it ends at 40, the drive is.
pub fn drive_is_read_off()
    ensures later { passed_sides evening_drive.plan [] (ends_at (pos 30) (pos 50))
        ≡ (requirement_side 0 Upper, 10) ∷ [] }
    ensures cut { passed_sides evening_drive.plan [] (ends_at (pos 30) (pos 40))
        ≡ (duration_side 0 Upper, 10) ∷ [] }
    ensures shorter { passed_sides evening_drive.plan [] (ends_at (pos 30) (pos 38))
        ≡ (duration_side 0 Upper, 12) ∷ [] }
{}

/// Sides are read off by their stated bounds, not by where a second price begins, and in the order of a proposal's
/// lines.
pub fn second_prices_are_read_off()
    ensures pairs { passed_sides rising_evening.plan [] (ends_at (pos 30) (pos 44))
        ≡ (requirement_side 0 Upper, 4) ∷ (duration_side 0 Upper, 6) ∷ [] }
    ensures lower { passed_sides rising_from_below.plan [] (ends_at (pos 14) (pos 20))
        ≡ (requirement_side 0 Lower, 2) ∷ (duration_side 0 Lower, 4) ∷ [] }
    ensures both { passed_sides rising_from_below.plan [] (ends_at (pos 14) (pos 15))
        ≡ (requirement_side 0 Lower, 2) ∷ (duration_side 0 Lower, 4)
        ∷ (duration_side 0 Upper, 5) ∷ [] }
{}

/// A requirement is passed where it is active, and not elsewhere.
pub fn inactive_requirements_are_not_read_off()
    ensures active { passed_sides two_sides.plan (Alternative 1 ∷ []) (pos 0 ∷ pos 11 ∷ [])
        ≡ (requirement_side 0 Upper, 1) ∷ (requirement_side 1 Lower, 1) ∷ [] }
    ensures inactive { passed_sides two_sides.plan (Alternative 0 ∷ []) (pos 0 ∷ pos 11 ∷ [])
        ≡ (requirement_side 0 Upper, 1) ∷ [] }
{}

/// The edges at some places: of the first slot and the first duration, and their pairs behind all tables.
pub fn places_have_their_edges()
    ensures dinner { key_at 2 ≡ Loose (requirement_side 0 Upper) }
    ensures last_slot { key_at 8191 ≡ Firm (requirement_side 2047 Upper) }
    ensures drive { key_at 8194 ≡ Loose (duration_side 0 Upper) }
    ensures order { key_at 8196 ≡ Order 0 }
    ensures dinner_steep { key_at 9473 ≡ Steep (requirement_side 0 Upper) }
    ensures drive_steep { key_at 13568 ≡ Steep (duration_side 0 Lower) }
{}

/// Where dinner later and a shorter drive cost the same, 3 units around them are worth 30. So no fraction costs less
/// than that in whole units, and half a minute cut with the rest later costs as much.
pub fn fractions_cost_as_much()
    ensures circulation { IsCirculation PLACES (settled_edges even_drive []) (around_drive 3) }
    ensures too_many { IsCirculation PLACES (settled_edges even_drive []) (around_drive 4) → ⊥ }
    ensures worth { worth_with even_drive.plan [] (settled_edges even_drive []) (around_drive 3)
        ≡ pos 30 }
    ensures bound { (k : ℕ) (q : Proposal) → IsSound even_drive.plan → Allowed even_drive k q →
        k * 30 ≤ cost even_drive.plan k q }
    ensures whole { cost even_drive.plan 1 (later_and_cut 10 0) ≡ 30 }
    ensures halves { Allowed even_drive 2 (later_and_cut 19 1) }
    ensures as_much { cost even_drive.plan 2 (later_and_cut 19 1) ≡ 60 }
{}
