//! What the words of a call ask for.
ghost use Rattle.std.specs.{Prelude.{◌≡◌, map, codes, MatchOption, IfSome, None, Some}, String.{string_bytes}};
ghost use Rattle.kd_base.specs.Text.{decimal_of};
ghost use Rattle.script_read.specs.Script.{same};
ghost use Rattle.call_parts.specs.Words.{IsForm, base_of as base_spelled, live_base_of, request_of as request, word_of as word_spelled, word_with, is_alone, is_base, made_input, takes_alone};

use kd_base::decimal_of;

/// The greatest length of BASE, in bytes.
const LONGEST_BASE: usize = 200;

/// The greatest number of made inputs.
const MOST_INPUTS: u64 = 20_000;

/// What a call may ask for: the first word after the program's name.
#[derive(Clone, Copy, PartialEq, Eq)]
pub enum Word {
    /// The report of the generation.
    Gen,
    /// The run of the script.
    Run,
    /// The list of the tables.
    Show,
    /// The tables are carried to the generation.
    Update,
    /// The trail of the script's run.
    Trail,
    /// The audit of a trail.
    Audit,
    /// The run of the made application with so many inputs, from 1 to 20,000.
    Make(u32),
}

#[tactic(auto, using(script_read::specs::SameLaws::same_texts))]
fn word_of(word: &[u8]) -> Option<Word>
    ensures value { result ≡ word_spelled word.now }
    ensures form { IfSome result IsForm }
{
    if word == b"gen".as_slice() {
        Some(Word::Gen)
    } else if word == b"run".as_slice() {
        Some(Word::Run)
    } else if word == b"show".as_slice() {
        Some(Word::Show)
    } else if word == b"update".as_slice() {
        Some(Word::Update)
    } else if word == b"trail".as_slice() {
        Some(Word::Trail)
    } else if word == b"audit".as_slice() {
        Some(Word::Audit)
    } else {
        None
    }
}

fn is_base(base: &[u8]) -> bool
    ensures { result ≡ is_base base.now }
{
    !base.is_empty() && base.len() <= LONGEST_BASE
}

fn made_input(number: &[u8]) -> Option<Word>
    ensures value { result ≡ made_input (decimal_of number.now) }
    ensures form { IfSome result IsForm }
{
    match decimal_of(number) {
        Some(n) if 1 <= n && n <= MOST_INPUTS => Some(Word::Make(n as u32)),
        _ => None,
    }
}

#[tactic(auto, using(script_read::specs::SameLaws::same_texts))]
fn word_with(word: &[u8], operand: &[u8]) -> Option<Word>
    ensures value { result ≡ word_with (same word.now (codes "make")) word.now operand.now }
    ensures form { IfSome result IsForm }
{
    if word == b"make".as_slice() {
        made_input(operand)
    } else if is_base(operand) {
        word_of(word)
    } else {
        None
    }
}

/// The word and the operand of `gen BASE`, `run BASE`, `show BASE`, `update BASE`, `trail BASE`, `audit BASE` and
/// `make N`. All other words are no form. A BASE has 1 to 200 bytes, and N has 1 to 18 digits.
pub fn request_of(words: &[String]) -> Option<(Word, &[u8])>
    ensures value { MatchOption result (request (map string_bytes words.now) ≡ None) (λ r. request (map string_bytes words.now) ≡ Some (r.0, r.1.now)) }
    ensures form { IfSome result (λ r. IsForm r.0) }
{
    match words {
        [word, operand] => {
            let operand = operand.as_bytes();
            match word_with(word.as_bytes(), operand) {
                Some(word) => Some((word, operand)),
                None => None,
            }
        }
        _ => None,
    }
}

/// The BASE of words that are one BASE alone, which has 1 to 200 bytes.
pub fn base_of(words: &[String]) -> Option<&[u8]>
    ensures { MatchOption result (base_spelled (map string_bytes words.now) ≡ None) (λ base. base_spelled (map string_bytes words.now) ≡ Some base.now) }
{
    match words {
        [base] => {
            let base = base.as_bytes();
            if is_base(base) { Some(base) } else { None }
        }
        _ => None,
    }
}

// Whether the word after a BASE is the option.
#[tactic(auto, using(script_read::specs::SameLaws::same_texts))]
fn is_alone(word: &[u8]) -> bool
    ensures { result ≡ is_alone word.now }
{
    word == b"--alone".as_slice()
}

/// The BASE of `BASE [--alone]`, which has 1 to 200 bytes, and whether a copy is taken alone.
pub fn live_of(words: &[String]) -> Option<(&[u8], bool)>
    ensures base { MatchOption result (live_base_of (map string_bytes words.now) ≡ None) (λ r. live_base_of (map string_bytes words.now) ≡ Some r.0.now) }
    ensures alone { IfSome result (λ r. takes_alone (map string_bytes words.now) ≡ r.1) }
{
    match words {
        [_base] => match base_of(words) {
            Some(base) => Some((base, false)),
            None => None,
        },
        [base, option] => {
            let base = base.as_bytes();
            if is_base(base) && is_alone(option.as_bytes()) {
                Some((base, true))
            } else {
                None
            }
        }
        _ => None,
    }
}
