//! Laws on the definitions of the made input and its report. The functions do nothing.
ghost use Rattle.call_parts.specs.EmittedLines.{EmitsAreLines};
ghost use Rattle.call_parts.specs.MadeApplication.{MadeTextsAreTaken};
ghost use Rattle.call_parts.specs.MadeExamples.{ScriptRows};
ghost use Rattle.call_parts.specs.MadeReading.{MakeIsRead, MakeReports};

use laws_of_states::laws_of_places::{facts_hold_along, states_stay_consistent};
use laws_of_states::laws_of_tables::{states_stay_sound, the_made_application_is_taken};
use script_read::commands_are_said;
use texts::kdcdef_lex::read_statements_are_spelled;
use unit_read::read_units_are_spelled;

/// Scripts for a few inputs, and rounds at a hundredth one.
pub fn worked_texts()
    ensures { ScriptRows }
{}

/// The made definition and units make the made application, and the script of each number of inputs is its commands.
pub fn made_texts_are_taken()
    ensures { MadeTextsAreTaken }
{
    read_statements_are_spelled();
    read_units_are_spelled();
    commands_are_said();
}

/// Every line that a run sends has one line feed, at its end, so that line feeds count the lines.
pub fn emits_are_lines()
    ensures { EmitsAreLines }
{
    states_stay_consistent();
    states_stay_sound();
    facts_hold_along();
}

/// `make N` asks for the made application and its script, whatever the room, and reports what the made lines say of that
/// script: each line that was sent is counted once.
pub fn make_is_read()
    ensures reads { MakeIsRead }
    ensures reports { MakeReports }
{
    made_texts_are_taken();
    commands_are_said();
    emits_are_lines();
    the_made_application_is_taken();
}
