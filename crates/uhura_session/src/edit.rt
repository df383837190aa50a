//! Edits of the state, and their answers.
ghost use Rattle.std.specs.Prelude.{◌≡◌, [], IfOk, OnOk, OnErr};
ghost use Rattle.uhura_line.specs.Reads.{IsCommand};
ghost use Rattle.uhura_command.specs.Apply.{IsEdit, refusal_of};
ghost use Rattle.uhura_search.specs.Searcher.{StandsFor};
ghost use Rattle.uhura_session.specs.Answers.{AnswersEdit};
ghost use Rattle.uhura_session.specs.Searching.{SearchesEdit};

use std::alloc::AllocError;
use uhura_command::{Command, State, put_state_error};
use uhura_search::Searcher;

/// Makes of the state what the command says, revises the searcher, and writes the answer. `ok` is written first, so
/// that after want of memory all is as before.
pub fn edit(
    state: &mut State,
    searcher: &mut Searcher,
    text: &mut Vec<u8>,
    command: &Command,
) -> Result<bool, AllocError>
    requires edit { IsEdit command.now }
    requires command { IsCommand command.now }
    requires empty { text.old.items ≡ [] }
    requires stands_for { StandsFor searcher.old state.old }
    ensures ok { IfOk result (λ refused.
        AnswersEdit (refusal_of state.old command.now) command.now state.old (record {
          text = text.new.items;
          refused = refused;
          next = state.new;
        })) }
    ensures searches { OnOk result
        (SearchesEdit (refusal_of state.old command.now) searcher.old searcher.new) }
    ensures stands_for { StandsFor searcher.new state.new }
    ensures state { OnErr result (state.new ≡ state.old) }
    ensures searcher { OnErr result (searcher.new ≡ searcher.old) }
{
    text.extend_from_slice(b"ok\n")?;
    match state.apply(command) {
        Ok(()) => {
            searcher.revise(&state.plan, &state.vetoes);
            Ok(false)
        }
        Err(refusal) => {
            put_state_error(text, refusal)?;
            Ok(true)
        }
    }
}
