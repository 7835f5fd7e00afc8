//! What the words of a call ask for.
ghost use Rattle.std.specs.{Prelude.{◌≡◌, map, codes, MatchOption, None, Some}, String.{string_bytes}};
ghost use Rattle.kd_base.specs.Text.{decimal_of};
ghost use Rattle.script_read.specs.Script.{same};
ghost use Rattle.lab_cli.specs.Words.{asked, explore_with, exploring, is_base, request_of as request, word_of as word_spelled};

use kd_base::decimal_of;

/// The greatest length of BASE, in bytes.
const LONGEST_BASE: usize = 200;

/// What a call may ask for.
#[derive(Clone, Copy)]
pub enum Word {
    /// All faults and warnings of the texts.
    Check,
    /// The script, turn by turn.
    Trace,
    /// Commands that are typed.
    Talk,
    /// The orders of the tasks, at most so many, drawn from this number.
    Explore(u64, u64),
    /// The script, against the lines that it expects.
    Test,
}

fn is_base(base: &[u8]) -> bool
    ensures { result ≡ is_base base.now }
{
    !base.is_empty() && base.len() <= LONGEST_BASE
}

#[tactic(auto, using(script_read::specs::SameLaws::same_texts))]
fn word_of(word: &[u8]) -> Option<Word>
    ensures { result ≡ word_spelled word.now }
{
    if word == b"check".as_slice() {
        Some(Word::Check)
    } else if word == b"trace".as_slice() {
        Some(Word::Trace)
    } else if word == b"talk".as_slice() {
        Some(Word::Talk)
    } else if word == b"test".as_slice() {
        Some(Word::Test)
    } else {
        None
    }
}

fn explore_with(most: Option<u64>, number: Option<u64>) -> Option<Word>
    ensures { result ≡ explore_with most number }
{
    let most = most?;
    let number = number?;
    if 1 <= most {
        Some(Word::Explore(most, number))
    } else {
        None
    }
}

#[tactic(auto, using(script_read::specs::SameLaws::same_texts))]
fn exploring(word: &[u8], most: &[u8], number: Option<u64>) -> Option<Word>
    ensures { result ≡ exploring word.now (decimal_of most.now) number }
{
    if word == b"explore".as_slice() {
        explore_with(decimal_of(most), number)
    } else {
        None
    }
}

fn asked(word: Option<Word>, base: &[u8]) -> Option<(Word, &[u8])>
    ensures { MatchOption result (asked word base.now ≡ None) (λ r. asked word base.now ≡ Some (r.0, r.1.now)) }
{
    match word {
        Some(word) if is_base(base) => Some((word, base)),
        _ => None,
    }
}

/// The word and the BASE of `check BASE`, `trace BASE`, `talk BASE`, `test BASE`, `explore BASE N` and `explore BASE N
/// NUMBER`. All other words are no form. A BASE has 1 to 200 bytes, N is at least 1, and the numbers have 1 to 18 digits.
pub fn request_of(words: &[String]) -> Option<(Word, &[u8])>
    ensures { MatchOption result (request (map string_bytes words.now) ≡ None) (λ r. request (map string_bytes words.now) ≡ Some (r.0, r.1.now)) }
{
    match words {
        [word, base] => asked(word_of(word.as_bytes()), base.as_bytes()),
        [word, base, most] => {
            let asked_for = exploring(word.as_bytes(), most.as_bytes(), Some(1));
            asked(asked_for, base.as_bytes())
        }
        [word, base, most, number] => {
            let number = decimal_of(number.as_bytes());
            let asked_for = exploring(word.as_bytes(), most.as_bytes(), number);
            asked(asked_for, base.as_bytes())
        }
        _ => None,
    }
}
