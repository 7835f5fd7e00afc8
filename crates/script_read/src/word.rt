//! The words of a line.
ghost use Rattle.std.specs.{Prelude.{◌≡◌, ◌<◌, ◌∷◌, [], false, length, IfSome, MatchOption}, List.{prefix_len, before_first, after_first}};
ghost use Rattle.kd_base.specs.Text.{is_space};
ghost use Rattle.script_read.specs.Script.{words, same};

use texts::len_before;

#[tactic(auto, using(crate::specs::SameLaws::same_texts))]
pub(crate) fn same(a: &[u8], b: &[u8]) -> bool
    ensures { result ≡ same a.now b.now }
{
    a == b
}

// How many spaces are in front.
fn spaces_len(line: &[u8]) -> usize
    ensures { result ≡ prefix_len is_space line.now }
{
    let mut n = 0;
    while n < line.len() && line[n] == b' ' {
        n += 1;
    }
    n
}

// The word in front, and what follows it; `None` where there is no word.
pub(crate) fn next_word(line: &[u8]) -> Option<(&[u8], &[u8])>
    ensures words { MatchOption result (words line.now ≡ []) (λ found. words line.now ≡ found.0.now ∷ words found.1.now) }
    ensures some { IfSome result (λ found. 0 < length found.0.now) }
{
    let (_, front) = line.split_at(spaces_len(line));
    if front.is_empty() {
        return None;
    }
    Some(front.split_at(len_before(b' ', front)))
}

// The bytes before the first space, and those after it.
pub(crate) fn split_at_space(line: &[u8]) -> (&[u8], &[u8])
    ensures before { result.0.now ≡ before_first is_space line.now }
    ensures behind { result.1.now ≡ after_first is_space line.now }
{
    let n = len_before(b' ', line);
    let (before, rest) = line.split_at(n);
    if rest.is_empty() {
        return (before, &[]);
    }
    (before, &line[n + 1..])
}
