//! Whether two commands are the same.
ghost use Rattle.std.specs.Prelude.{◌≡◌, ◌↔◌, IsTrue};

use abstract_monitor::Command;

/// Whether two commands are the same.
pub(crate) fn same_command(one: &Command, other: &Command) -> bool
    ensures { IsTrue result ↔ (one.now ≡ other.now) }
{
    match (one, other) {
        (Command::Input(pterm, text), Command::Input(its, its_text)) => {
            pterm == its && text == its_text
        }
        (Command::Tick(ticks), Command::Tick(its)) => ticks == its,
        (Command::Run(turns), Command::Run(its)) => turns == its,
        (Command::Turn(task), Command::Turn(its)) => task == its,
        (Command::Drop(pterm), Command::Drop(its)) => pterm == its,
        (Command::Print(pterm), Command::Print(its)) => pterm == its,
        (Command::PrintLast(pterm), Command::PrintLast(its)) => pterm == its,
        (Command::Restart, Command::Restart) => true,
        _ => false,
    }
}
