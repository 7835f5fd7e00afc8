//! How lines are told apart on a terminal.

/// The style of a line, by its first bytes: a command or the prompt for one is bold, what a turn did is cyan, and a warning
/// is yellow. It is empty for all other lines.
pub(crate) fn style_of(line: &[u8]) -> &'static [u8] {
    match line {
        [b'>', ..] => b"\x1b[1m",
        [b' ', ..] => b"\x1b[36m",
        [b'W', b'A', b'R', b'N', b' ', ..] => b"\x1b[33m",
        _ => b"",
    }
}
