//! The laws of the script: a state's commands make it, its canonical script reads back, and no slot is written.
ghost use Rattle.uhura_command.specs.Replay.{CommandsMakeStates, ScriptsReadBack, SlotsAreNotWritten};

/// The commands of a state make it, one after the other from nothing, up to the slots of its requirements; so does
/// its canonical script, read line by line.
pub fn a_script_reads_back()
    ensures commands { CommandsMakeStates }
    ensures script { ScriptsReadBack }
{}

/// States that are the same up to the slots of their requirements have the same canonical script. So what is shown
/// doesn't depend on the history that made the state.
pub fn a_script_holds_no_slot()
    ensures { SlotsAreNotWritten }
{}
