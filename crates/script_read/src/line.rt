//! The lines that are passed over.
ghost use Rattle.std.specs.{Prelude.{◌≡◌}, List.{list_all}};
ghost use Rattle.kd_base.specs.Text.{is_space};
ghost use Rattle.script_read.specs.Script.{is_comment, is_passed};

fn is_comment(line: &[u8]) -> bool
    ensures { result ≡ is_comment line.now }
{
    !line.is_empty() && line[0] == b'*'
}

fn is_spaces(line: &[u8]) -> bool
    ensures { result ≡ list_all is_space line.now }
{
    line.iter().all(|b| *b == b' ')
}

// Whether the line is a comment, empty, or of spaces alone.
pub(crate) fn is_passed(line: &[u8]) -> bool
    ensures { result ≡ is_passed line.now }
{
    is_comment(line) || is_spaces(line)
}
