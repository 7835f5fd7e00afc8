//! The lines of a script, as a test takes them.
ghost use Rattle.std.specs.{Prelude.{◌≡◌, ◌∷◌, ◌<◌, length, None, Some, MatchOption}, List.{list_all}};
ghost use Rattle.kd_base.specs.Text.{is_space};
ghost use Rattle.script_read.specs.Script.{is_passed};
ghost use Rattle.lab_scripts.specs.Expected.{text_in};

use abstract_monitor::Command;

/// The text that a line expects, if it expects one.
#[tactic(auto, using(script_read::specs::SameLaws::same_texts))]
pub(crate) fn text_in(line: &[u8]) -> Option<&[u8]>
    ensures { MatchOption result (text_in line.now ≡ None) (λ text. text_in line.now ≡ Some text.now) }
{
    if let Some(text) = line.strip_prefix(b"*> ") {
        return Some(text);
    }
    line.strip_prefix(b"*>")
}

fn is_spaces(line: &[u8]) -> bool
    ensures { result ≡ list_all is_space line.now }
{
    line.iter().all(|byte| *byte == b' ')
}

/// Whether the line is a comment, empty, or of spaces alone. All others are commands.
pub(crate) fn is_passed(line: &[u8]) -> bool
    ensures { result ≡ is_passed line.now }
{
    !line.is_empty() && line[0] == b'*' || is_spaces(line)
}

/// The first command, and those behind it.
pub(crate) fn next_of(commands: &[Command]) -> (&Command, &[Command])
    requires { 0 < length commands.now }
    ensures { commands.now ≡ result.0.now ∷ result.1.now }
{
    let (first, rest) = commands.split_at(1);
    (&first[0], rest)
}
