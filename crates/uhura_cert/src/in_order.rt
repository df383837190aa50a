//! The order of a script's lines: a list of the state is closed where a later one has begun.
ghost use Rattle.std.specs.Prelude.{◌≡◌, ◌+◌, true, false, length};
ghost use Rattle.uhura_cert.specs.Machine.{later};

use uhura_command::{Command, State};

/// Whether there is no veto.
fn has_no_vetoes(state: &State) -> bool
    ensures yes { result ≡ true → length state.now.vetoes ≡ 0 }
    ensures no { result ≡ false → length state.now.vetoes ≡ 0 → ⊥ }
{
    state.vetoes.count() == 0
}

/// Whether there is no requirement, and nothing behind.
fn has_no_requirements(state: &State) -> bool
    ensures yes { result ≡ true →
        length state.now.plan.requirements + length state.now.vetoes ≡ 0 }
    ensures no { result ≡ false →
        length state.now.plan.requirements + length state.now.vetoes ≡ 0 → ⊥ }
{
    state.plan.requirements() == 0 && has_no_vetoes(state)
}

/// Whether there is no choice, and nothing behind.
fn has_no_choices(state: &State) -> bool
    ensures yes { result ≡ true → length state.now.plan.choices
        + length state.now.plan.requirements + length state.now.vetoes ≡ 0 }
    ensures no { result ≡ false → length state.now.plan.choices
        + length state.now.plan.requirements + length state.now.vetoes ≡ 0 → ⊥ }
{
    state.plan.choices() == 0 && has_no_requirements(state)
}

/// Whether there is no duration, and nothing behind.
fn has_no_uncertains(state: &State) -> bool
    ensures yes { result ≡ true → length state.now.plan.uncertains + length state.now.plan.choices
        + length state.now.plan.requirements + length state.now.vetoes ≡ 0 }
    ensures no { result ≡ false → length state.now.plan.uncertains + length state.now.plan.choices
        + length state.now.plan.requirements + length state.now.vetoes ≡ 0 → ⊥ }
{
    state.plan.uncertains() == 0 && has_no_choices(state)
}

/// Whether the command is one of a script, and nothing stands behind the things of its kind.
pub(crate) fn is_in_order(state: &State, command: &Command) -> bool
    ensures yes { result ≡ true → later state.now command.now ≡ 0 }
    ensures no { result ≡ false → later state.now command.now ≡ 0 → ⊥ }
{
    match command {
        Command::Event { .. } => has_no_uncertains(state),
        Command::Uncertain { .. } => has_no_choices(state),
        Command::Choice { .. } => has_no_requirements(state),
        Command::Require { .. } => has_no_vetoes(state),
        Command::Deny { .. } | Command::Cap { .. } => true,
        Command::Drop { .. }
        | Command::Bound { .. }
        | Command::Price { .. }
        | Command::Rate { .. }
        | Command::Range { .. }
        | Command::Prefer { .. }
        | Command::Withdraw { .. }
        | Command::Show
        | Command::Propose
        | Command::Prove => false,
    }
}
