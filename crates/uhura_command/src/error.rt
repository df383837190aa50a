//! The lines that answer refused lines.
ghost use Rattle.std.specs.Prelude.{◌≡◌, IfOk};
ghost use Rattle.uhura_command.specs.Errors.{IsLineError, IsStateError};

use crate::StateRefusal;
use std::alloc::AllocError;
use uhura_line::LineRefusal;

/// Writes this line in place of what the text holds.
fn rewrite(text: &mut Vec<u8>, line: &[u8]) -> Result<(), AllocError>
    ensures { IfOk result (λ _. text.new.items ≡ line.now) }
{
    text.clear();
    text.extend_from_slice(line)
}

/// Writes why a line is no command, in place of what the text holds. Want of memory is passed on.
pub fn put_line_error(text: &mut Vec<u8>, refusal: LineRefusal) -> Result<(), AllocError>
    ensures { IfOk result (λ _. IsLineError refusal text.new.items) }
{
    match refusal {
        LineRefusal::Long => rewrite(text, b"error 1 Long\n"),
        LineRefusal::Byte { .. } => rewrite(text, b"error 2 Byte\n"),
        LineRefusal::Verb => rewrite(text, b"error 3 Verb\n"),
        LineRefusal::Form => rewrite(text, b"error 4 Form\n"),
        LineRefusal::Number => rewrite(text, b"error 5 Number\n"),
        LineRefusal::Name => rewrite(text, b"error 6 Name\n"),
        LineRefusal::Memory(error) => Err(error),
    }
}

/// Writes why a command is refused, in place of what the text holds. Want of memory is passed on.
pub fn put_state_error(text: &mut Vec<u8>, refusal: StateRefusal) -> Result<(), AllocError>
    ensures { IfOk result (λ _. IsStateError refusal text.new.items) }
{
    match refusal {
        StateRefusal::Taken => rewrite(text, b"error 7 Taken\n"),
        StateRefusal::Unknown => rewrite(text, b"error 8 Unknown\n"),
        StateRefusal::Kind => rewrite(text, b"error 9 Kind\n"),
        StateRefusal::Empty { .. } => rewrite(text, b"error 10 Empty\n"),
        StateRefusal::Guard { .. } => rewrite(text, b"error 11 Guard\n"),
        StateRefusal::Full { .. } => rewrite(text, b"error 12 Full\n"),
        StateRefusal::Held { .. } => rewrite(text, b"error 13 Held\n"),
        StateRefusal::Memory(error) => Err(error),
    }
}
