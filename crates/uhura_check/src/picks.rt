//! The branch of a proposal.
ghost use Rattle.std.specs.Prelude.{◌≡◌, ◌==◌, ◌++◌, [], ◌∷◌, length, find, option_copied, MatchOption};
ghost use Rattle.std.specs.Bool.{Decides};
ghost use Rattle.uhura_choice.specs.Branch.{IsBranch, IsPrefix, IsEntry};
ghost use Rattle.uhura_shows.specs.Behind.{child_index};
ghost use Rattle.uhura_check.specs.Confirmed.{pick_of, picks_of};
ghost use Rattle.uhura_check.specs.Conditions.{IsPicked};
ghost use Rattle.uhura_check.specs.Picks.{IsLonger, IsBranchBy, IsPickedBy};

use uhura_choice::{Branch, Pick, Prefix, child, holds};
use uhura_command::State;
use uhura_plan::{Choice, Literal, Plan};
use uhura_veto::denied_by;

/// The branch that the literals pick, where they pick one that isn't denied.
pub(crate) fn picked_branch(state: &State, literals: &[Literal]) -> Option<Branch>
    ensures { MatchOption result
        (IsPicked state.now (picks_of literals.now (length state.now.plan.choices)) → ⊥)
        (IsPickedBy state.now literals.now) }
{
    let Some(branch) = branch_of(&state.plan, literals) else {
        return None;
    };
    if denied_by(&state.vetoes, &branch).is_some() {
        None
    } else {
        Some(branch)
    }
}

/// The branch that the literals pick, where they pick one.
fn branch_of(plan: &Plan, literals: &[Literal]) -> Option<Branch>
    ensures { MatchOption result
        (IsBranch plan.now.choices (picks_of literals.now (length plan.now.choices)) → ⊥)
        (IsBranchBy plan.now.choices literals.now) }
{
    let mut front = Prefix::empty();
    for place in 0..plan.choices() {
        let Some(longer) = with_pick(plan, &front, pick_of(literals, place)) else {
            return None;
        };
        front = longer;
    }
    Some(front)
}

/// The prefix and one pick more, where they are a prefix.
fn with_pick(plan: &Plan, prefix: &Prefix, pick: Pick) -> Option<Prefix>
    requires { IsPrefix plan.now.choices prefix.now }
    ensures { MatchOption result (IsPrefix plan.now.choices (prefix.now ++ pick ∷ []) → ⊥)
        (IsLonger plan.now.choices prefix.now pick) }
{
    let Some(choice) = plan.choice(prefix.entries().len() as u32) else {
        return None;
    };
    if is_entry(choice, prefix, pick) {
        Some(child(plan, prefix, child_index(pick)))
    } else {
        None
    }
}

/// Whether the pick is one that the choice may have behind the prefix.
fn is_entry(choice: &Choice, prefix: &Prefix, pick: Pick) -> bool
    ensures { Decides result (IsEntry choice.now prefix.now pick) }
{
    match pick {
        Pick::Alternative(alternative) => {
            holds(&choice.guard, prefix)
                && (alternative as usize) < choice.alternatives.as_slice().len()
        }
        Pick::Inactive => !holds(&choice.guard, prefix),
    }
}

/// How many children of a prefix come before the one with this pick.
fn child_index(pick: Pick) -> u32
    ensures { result ≡ child_index pick }
{
    match pick {
        Pick::Alternative(alternative) => alternative,
        Pick::Inactive => 0,
    }
}

/// What the literals pick of the choice at a place.
fn pick_of(literals: &[Literal], choice: u32) -> Pick
    ensures { result ≡ pick_of literals.now choice }
{
    match literal_of(literals, choice) {
        Some(literal) => Pick::Alternative(literal.alternative),
        None => Pick::Inactive,
    }
}

/// The first literal that names the choice.
fn literal_of(literals: &[Literal], choice: u32) -> Option<&Literal>
    ensures { option_copied result ≡ find (λ l. l.choice == choice) literals.now }
{
    literals.iter().find(|literal| literal.choice == choice)
}
