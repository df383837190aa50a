//! The laws of the line language: the form of words is the one that is read from them, no line has two commands or
//! two causes of refusal, and no command is missed or lost.
ghost use Rattle.std.specs.Prelude.{◌≡◌, ℕ, ◌+◌, ◌≤◌, IsTrue, List, length, Option, Some, Result, Ok, Err};
ghost use Rattle.std.specs.declared.alloc.AllocError.{AllocError};
ghost use Rattle.uhura_line.specs.Form.{Word, Form, words_of, IsForm};
ghost use Rattle.uhura_line.specs.Reads.{form_of, has_numbers, has_names, IsCommand};
ghost use Rattle.uhura_line.specs.Parses.{ParsesWords, Parses};
ghost use Rattle.uhura_line.specs.ParsedBack.{IsGiven};
ghost use Rattle.uhura_line.specs.Verbs.{form_in};
ghost use Rattle.uhura_line.specs.declared.parsing.TheConstants.{LINE_BYTES};
ghost use Rattle.uhura_line.specs.Written.{line_of, ReadsAs};
ghost use Rattle.uhura_line.specs.declared.command.Command.{Command};
ghost use Rattle.uhura_line.specs.declared.refusal.LineRefusal.{LineRefusal};
ghost use Rattle.uhura_line.specs.declared.refusal.LineRefusal.TheVariants.{Memory};

/// The form that is read from words is the form that the grammar gives them.
pub fn the_grammar_is_read()
    ensures found { (words : List Word) (f : Form) → IsForm words f → form_in words ≡ Some f }
    ensures is_form { (words : List Word) (f : Form) → form_in words ≡ Some f → IsForm words f }
{}

/// The words of a line are of one form at most, and give one command at most.
pub fn no_line_has_two_commands()
    ensures forms { (words : List Word) (f g : Form) → IsForm words f → IsForm words g → f ≡ g }
    ensures commands { (words : List Word) (c d : Command)
        → IsForm words (form_of c) → IsForm words (form_of d) → IsCommand c → IsCommand d → c ≡ d }
{}

/// Words of a form give a command where those at the places of numbers and names are such.
pub fn no_command_is_missed()
    ensures { (words : List Word) (f : Form)
        → IsForm words f → IsTrue (has_numbers f) → IsTrue (has_names f)
        → (c : Command) × IsForm words (form_of c) × IsCommand c }
{}

/// A line is refused for one cause at most, and one with a command for want of memory alone.
pub fn no_line_has_two_causes()
    ensures causes { (words : List Word) (r s : LineRefusal)
        → ParsesWords words (Err r) → ParsesWords words (Err s) → r ≡ s }
    ensures accepted { (words : List Word) (c : Command) (r : LineRefusal)
        → ParsesWords words (Ok c) → ParsesWords words (Err r)
        → (error : AllocError) × (r ≡ Memory error) }
{}

/// A line that is read as the words of a command gives that command, but for want of memory. What is written of a
/// command has no more bytes, its newline aside, than any line that gives it.
pub fn no_written_command_is_lost()
    ensures parsed { (line : List ℕ) (c : Command) (result : Result (Option Command) LineRefusal)
        → IsCommand c → ReadsAs line (words_of (form_of c)) → length line ≤ LINE_BYTES
        → Parses line result → IsGiven c result }
    ensures short { (line : List ℕ) (c : Command) → Parses line (Ok (Some c))
        → length (line_of (words_of (form_of c))) ≤ length line + 1 }
{}
