//! The words of a line.
ghost use Rattle.std.specs.{Prelude.{◌≡◌, ◌∷◌}, Option.{option_map, option_copied}};
ghost use Rattle.audit_trail.specs.{Lines.{words, one, two, three}, Reading.{words_after}};

use texts::len_before;

/// The first word of a line, and what follows the space behind it, if there is one.
pub(crate) fn first_word(line: &[u8]) -> (&[u8], Option<&[u8]>)
    ensures { words line.now ≡ result.0.now ∷ words_after (option_copied result.1) }
{
    let n = len_before(b' ', line);
    let (word, rest) = line.split_at(n);
    if rest.is_empty() {
        return (word, None);
    }
    (word, Some(&line[n + 1..]))
}

/// The word that is left, where it is one alone.
pub(crate) fn one(rest: Option<&[u8]>) -> Option<&[u8]>
    ensures { option_copied result ≡ one (words_after (option_copied rest.entry)) }
{
    let (word, rest) = first_word(rest?);
    match rest {
        None => Some(word),
        Some(_) => None,
    }
}

/// The two words that are left.
pub(crate) fn two(rest: Option<&[u8]>) -> Option<(&[u8], &[u8])>
    ensures { option_map (λ p. (p.0.now, p.1.now)) result ≡ two (words_after (option_copied rest.entry)) }
{
    let (word, rest) = first_word(rest?);
    Some((word, one(rest)?))
}

/// The three words that are left.
pub(crate) fn three(rest: Option<&[u8]>) -> Option<(&[u8], &[u8], &[u8])>
    ensures { option_map (λ p. (p.0.now, p.1.now, p.2.now)) result ≡ three (words_after (option_copied rest.entry)) }
{
    let (word, rest) = first_word(rest?);
    let (next, last) = two(rest)?;
    Some((word, next, last))
}
