//! Lines, each up to its line feed.
ghost use Rattle.std.specs.{Prelude.{◌≡◌, ◌==◌, ◌<◌, ◌∷◌, length}, List.{position_or_len}, Str.Lines.{lines, strip_carriage_return}};

/// How many bytes are before the first such byte.
pub fn len_before(byte: u8, bytes: &[u8]) -> usize
    ensures { result ≡ position_or_len (λ b. b == byte) bytes.now }
{
    let mut n = 0;
    while n < bytes.len() && bytes[n] != byte {
        n += 1;
    }
    n
}

// The line without the carriage return before its line feed.
fn without_return(line: &[u8]) -> &[u8]
    ensures { result.now ≡ strip_carriage_return line.now }
{
    if line.is_empty() || line[line.len() - 1] != b'\r' {
        return line;
    }
    &line[..line.len() - 1]
}

/// The first line without its end, which is a line feed, or a carriage return and a line feed; and the text after it.
#[tactic(auto, using(crate::specs::LinesLaws::first_line, crate::specs::LinesLaws::last_line))]
pub fn next_line(text: &[u8]) -> (&[u8], &[u8])
    requires { 0 < length text.now }
    ensures lines { lines text.now ≡ result.0.now ∷ lines result.1.now }
    ensures shorter { length result.1.now < length text.now }
{
    let n = len_before(b'\n', text);
    if n >= text.len() {
        return (text, &[]);
    }
    let (line, _) = text.split_at(n);
    let (_, rest) = text.split_at(n + 1);
    (without_return(line), rest)
}
