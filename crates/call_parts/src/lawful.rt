//! The laws that what texts ask for keeps.
ghost use Rattle.call_parts.specs.Asking.{TextsCanRun, TextsOfTwoCanRun};

use application_read::generations_are_sound;
use audit_trail::says_what_its_lines_say;
use script_read::commands_are_said;

/// Texts that ask for something make an application, with a script of its names or a trail that can be audited. It does
/// nothing.
pub fn texts_can_run()
    ensures { TextsCanRun }
{
    generations_are_sound();
    commands_are_said();
    says_what_its_lines_say();
}

/// Texts of two copies that ask for something do so too. It does nothing.
pub fn texts_of_two_can_run()
    ensures { TextsOfTwoCanRun }
{
    generations_are_sound();
    commands_are_said();
    says_what_its_lines_say();
}
