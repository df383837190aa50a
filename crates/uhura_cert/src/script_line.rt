//! A line of a document's script, taken.
ghost use Rattle.std.specs.Prelude.{◌≡◌, true, false, Ok, Err, IfOk};
ghost use Rattle.std.specs.declared.alloc.AllocError.{AllocError};
ghost use Rattle.uhura_veto.specs.State.{State};
ghost use Rattle.uhura_line.specs.Reads.{IsCommand};
ghost use Rattle.uhura_command.specs.declared.state.refusal.StateRefusal.{StateRefusal};
ghost use Rattle.uhura_command.specs.declared.state.refusal.StateRefusal.TheVariants.{Memory};
ghost use Rattle.uhura_cert.specs.Machine.{Makes};
ghost use Rattle.uhura_cert.specs.Taking.{IsRefusedBy};

use crate::in_order::is_in_order;
use std::alloc::AllocError;
use uhura_command::{Command, State, StateRefusal};

/// Whether a command was taken, where no memory was wanted.
fn was_taken(applied: Result<(), StateRefusal>) -> Result<bool, AllocError>
    ensures yes { IfOk result (λ taken. taken ≡ true → applied ≡ Ok tt) }
    ensures no { IfOk result (λ taken. taken ≡ false → IsRefusedBy applied) }
{
    match applied {
        Ok(()) => Ok(true),
        Err(StateRefusal::Memory(error)) => Err(error),
        Err(_) => Ok(false),
    }
}

/// Makes of the state what a command of its script says, and tells whether it may come there.
#[tactic(auto, using(crate::proofs::Taken::edits_in_order, crate::proofs::Taken::not_made, crate::proofs::Taken::made))]
pub(crate) fn take_command(state: &mut State, command: &Command) -> Result<bool, AllocError>
    requires { IsCommand command.now }
    ensures taken { IfOk result (λ taken. taken ≡ true → Makes state.old command.now state.new) }
    ensures refused { IfOk result (λ taken. taken ≡ false →
        (next : State) → Makes state.old command.now next → ⊥) }
{
    if !is_in_order(state, command) {
        return Ok(false);
    }
    let applied = state.apply(command);
    // By its type the plan is sound.
    let _ = state.plan.events();
    was_taken(applied)
}
