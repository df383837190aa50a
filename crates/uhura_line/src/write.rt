//! A command as a line.
ghost use Rattle.std.specs.Prelude.{◌≡◌, ◌++◌, [], IfOk, OnOk, OnErr};
ghost use Rattle.uhura_line.specs.Form.{words_of};
ghost use Rattle.uhura_line.specs.Reads.{form_of, IsCommand};
ghost use Rattle.uhura_line.specs.Written.{line_of, IsLineOf};

use crate::Command;
use crate::verb::put_command;
use std::alloc::AllocError;

/// Writes the line of a command, with its newline.
#[tactic(auto, using(crate::proofs::Spacing::lines))]
fn put_line(line: &mut Vec<u8>, command: &Command) -> Result<(), AllocError>
    requires { line.old.items ≡ [] }
    ensures { IfOk result (λ _. line.new.items ≡ line_of (words_of (form_of command.now))) }
{
    put_command(line, command)?;
    line.extend_from_slice(b"\n")
}

/// Appends the line of a command: its words separated by one space, with a newline behind them.
#[tactic(auto, using(crate::proofs::FormWords::command_read_back))]
pub fn write_command(out: &mut Vec<u8>, command: &Command) -> Result<(), AllocError>
    ensures ok { let words = words_of (form_of command.now) in
        OnOk result (out.new.items ≡ out.old.items ++ line_of words) }
    ensures reads_back { let words = words_of (form_of command.now) in
        IsCommand command.now → IsLineOf (line_of words) words }
    ensures err { OnErr result (out.new.items ≡ out.old.items) }
{
    let mut line = Vec::new(out.allocator().clone()?);
    put_line(&mut line, command)?;
    out.extend_from_slice(line.as_slice())
}
