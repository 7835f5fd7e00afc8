//! Laws on the definitions, which all crates above may cite. The function does nothing.
ghost use Rattle.device_acts.specs.Storing.{CommandsCanBeStored, TurnsCanBeStored};

use laws_of_states::laws_of_steps::steps_commit_once;
use laws_of_states::laws_of_tables::states_stay_sound;

/// From a state with its facts, whose durable tables are proper, the commit of a turn and of a command can be stored in
/// the pages of the generation, and leaves proper tables.
pub fn steps_can_be_stored()
    ensures turns { TurnsCanBeStored }
    ensures commands { CommandsCanBeStored }
{
    steps_commit_once();
    states_stay_sound();
}
