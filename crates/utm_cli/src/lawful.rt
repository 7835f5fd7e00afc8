//! The laws that what a call asks for keeps.
ghost use Rattle.std.specs.Prelude.{List, ℕ, Ok};
ghost use Rattle.kd_device.specs.Room.{RoomState};
ghost use Rattle.kdcfile_update.specs.Updating.{Stored};
ghost use Rattle.call_parts.specs.Asking.{Errand, app_of};
ghost use Rattle.utm_cli.specs.Doing.{Starts, tables_of};
ghost use Rattle.call_parts.specs.Requests.{Reads};
ghost use Rattle.call_ends.specs.LawfulRuns.{RunsLawfully};

use application_read::generations_are_sound;
use call_ends::scripts_of_suited_tables_run_lawfully;
use call_parts::texts_can_run;
use kdcfile_update::taken_tables_suit;

/// From the tables that a call goes on from, each step of the script is lawful, begins only services that the rule of locks
/// and keys allows, and keeps jobs; each cut of it can be gone on from and is stored by a serial run; and runs one after
/// another keep jobs too. It does nothing.
pub(crate) fn scripts_run_lawfully()
    ensures { (words : List (List ℕ)) (room : RoomState) (e : Errand) → Reads words room (Ok e) → (bytes : List ℕ) (s : Stored) → Starts e bytes s → RunsLawfully (app_of e) (tables_of e s) e.commands }
{
    texts_can_run();
    generations_are_sound();
    taken_tables_suit();
    scripts_of_suited_tables_run_lawfully();
}
