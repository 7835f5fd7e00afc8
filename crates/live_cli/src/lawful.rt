//! The laws that commands keep which are typed.
ghost use Rattle.live_cli.specs.LivesLawfully.{SessionsLiveLawfully};

use call_ends::scripts_of_suited_tables_run_lawfully;
use call_parts::{texts_can_run, texts_of_two_can_run};
use script_read::commands_are_said;

/// Whatever lines are typed, from tables with which the files of texts are opened, their commands run lawfully. It does
/// nothing.
pub(crate) fn sessions_live_lawfully()
    ensures { SessionsLiveLawfully }
{
    texts_can_run();
    texts_of_two_can_run();
    commands_are_said();
    scripts_of_suited_tables_run_lawfully();
}
