//! What holds of every script, as contracts of functions that do nothing.
ghost use Rattle.script_read.specs.{Laws.{FaultsAreFirst, SaysWhatItsLinesSay}, Examples.{InputRows, NumberRows, NameRows, LineRows, ScriptRows}};
ghost use Rattle.script_read.specs.Spelling.{CommandsAreSaid, CommandsOnly, OutsideIsTold, OutsideOnly, PassedAreNothing, PassedOnly};

/// A line that is spelled as a command says that command, and no other line says one. A TICK, a RUN or a TURN with digits
/// that are no number of its range is out of range, and no other line is. Comments and lines of spaces say nothing. Every
/// other line is bad.
pub fn commands_are_said()
    ensures commands { CommandsAreSaid }
    ensures commands_only { CommandsOnly }
    ensures ranges { OutsideIsTold }
    ensures ranges_only { OutsideOnly }
    ensures passed { PassedAreNothing }
    ensures passed_only { PassedOnly }
{}

/// A script that is refused for a line is so for the first line that is no command, no comment and not empty.
pub fn faults_are_first()
    ensures commands { FaultsAreFirst }
{}

/// A script that says commands says those of its lines, one after another, and no line of it is at fault.
pub fn says_what_its_lines_say()
    ensures commands { SaysWhatItsLinesSay }
{}

/// Worked lines, in a generation of two tasks with a terminal and a printer.
pub fn worked_lines()
    ensures inputs { InputRows }
    ensures numbers { NumberRows }
    ensures names { NameRows }
    ensures lines { LineRows }
    ensures scripts { ScriptRows }
{}
