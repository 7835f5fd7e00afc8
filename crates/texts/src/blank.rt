//! Blanks.
ghost use Rattle.std.specs.{Prelude.{◌≡◌, length, drop}, List.{prefix_len}};
ghost use Rattle.texts.specs.Blanks.{is_blank, from_first};

/// Whether the byte is a space or a tab.
pub fn is_blank(b: u8) -> bool
    ensures { result ≡ is_blank b }
{
    b == b' ' || b == b'\t'
}

/// The line from its first byte that is no blank.
pub fn from_first(line: &[u8]) -> &[u8]
    ensures { result.now ≡ from_first line.now }
{
    let mut n = 0;
    while n < line.len() && is_blank(line[n]) {
        n += 1;
    }
    &line[n..]
}
