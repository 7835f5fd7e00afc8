//! What the words of a call ask for.
ghost use Rattle.std.specs.{Prelude.{◌≡◌, map, MatchOption, None, Some, codes}, String.{string_bytes}};
ghost use Rattle.call_parts.specs.Words.{is_base};
ghost use Rattle.script_read.specs.Script.{same};
ghost use Rattle.carry_cli.specs.Words.{backup_by, backup_of, carried_by, carry_of, option_by, plain, state_of, with_option};

use call_parts::base_of;

/// The greatest length of BASE, in bytes.
const LONGEST_BASE: usize = 200;

/// What the options of a call ask for.
#[derive(Clone, Copy)]
pub struct Options {
    /// `--drop`: rows that do not suit the texts may go.
    pub may_drop: bool,
    /// `--try`: it is told what would be done, and no file is written.
    pub only_tries: bool,
    /// `--alone`: a copy is taken though the other file is empty or not there.
    pub alone: bool,
}

/// The BASE of `state BASE`, which has 1 to 200 bytes. All other words are no form of it.
#[tactic(auto, using(script_read::specs::SameLaws::same_texts))]
pub(crate) fn state_of(words: &[String]) -> Option<&[u8]>
    ensures { MatchOption result (state_of (map string_bytes words.now) ≡ None) (λ base. state_of (map string_bytes words.now) ≡ Some base.now) }
{
    match words {
        [word, rest @ ..] => {
            if word.as_bytes() == b"state".as_slice() {
                base_of(rest)
            } else {
                None
            }
        }
        [] => None,
    }
}

// The options with this word, which is one that is not among them yet.
#[tactic(auto, using(script_read::specs::SameLaws::same_texts))]
fn option_of(options: Options, word: &[u8]) -> Option<Options>
    ensures { result ≡ option_by options (same word.now (codes "--drop")) (same word.now (codes "--try")) (same word.now (codes "--alone")) }
{
    let Options {
        may_drop,
        only_tries,
        alone,
    } = options;
    if word == b"--drop".as_slice() {
        if may_drop {
            return None;
        }
        Some(Options {
            may_drop: true,
            only_tries,
            alone,
        })
    } else if word == b"--try".as_slice() {
        if only_tries {
            return None;
        }
        Some(Options {
            may_drop,
            only_tries: true,
            alone,
        })
    } else if word == b"--alone".as_slice() {
        if alone {
            return None;
        }
        Some(Options {
            may_drop,
            only_tries,
            alone: true,
        })
    } else {
        None
    }
}

fn with_option(options: Option<Options>, word: &[u8]) -> Option<Options>
    ensures { result ≡ with_option options word.now }
{
    match options {
        Some(options) => option_of(options, word),
        None => None,
    }
}

// No option.
fn plain() -> Option<Options>
    ensures { result ≡ Some plain }
{
    Some(Options {
        may_drop: false,
        only_tries: false,
        alone: false,
    })
}

fn is_base(base: &[u8]) -> bool
    ensures { result ≡ is_base base.now }
{
    !base.is_empty() && base.len() <= LONGEST_BASE
}

// The BASE with its options. No BASE is `state`, which is a word of the call.
#[tactic(auto, using(script_read::specs::SameLaws::same_texts))]
fn carried(base: &[u8], options: Option<Options>) -> Option<(&[u8], Options)>
    ensures { MatchOption result (carried_by (same base.now (codes "state")) (is_base base.now) base.now options ≡ None) (λ r. carried_by (same base.now (codes "state")) (is_base base.now) base.now options ≡ Some (r.0.now, r.1)) }
{
    if base == b"state".as_slice() || !is_base(base) {
        return None;
    }
    match options {
        Some(options) => Some((base, options)),
        None => None,
    }
}

/// The BASE that is carried, which has 1 to 200 bytes, and the options after it, each at most once and in any order.
pub(crate) fn carry_of(words: &[String]) -> Option<(&[u8], Options)>
    ensures { MatchOption result (carry_of (map string_bytes words.now) ≡ None) (λ r. carry_of (map string_bytes words.now) ≡ Some (r.0.now, r.1)) }
{
    match words {
        [base] => carried(base.as_bytes(), plain()),
        [base, one] => carried(base.as_bytes(), with_option(plain(), one.as_bytes())),
        [base, one, two] => {
            let options = with_option(plain(), one.as_bytes());
            carried(base.as_bytes(), with_option(options, two.as_bytes()))
        }
        [base, one, two, three] => {
            let options = with_option(plain(), one.as_bytes());
            let options = with_option(options, two.as_bytes());
            carried(base.as_bytes(), with_option(options, three.as_bytes()))
        }
        _ => None,
    }
}

// BASE and TO, which is no option.
#[tactic(auto, using(script_read::specs::SameLaws::same_texts))]
fn backed_up<'a>(word: &[u8], base: &'a str, to: &'a str) -> Option<(&'a str, &'a str)>
    ensures { MatchOption result (backup_by (same word.now (codes "backup")) (is_base base.now) (is_base to.now) (with_option (Some plain) to.now) base.now to.now ≡ None) (λ r. backup_by (same word.now (codes "backup")) (is_base base.now) (is_base to.now) (with_option (Some plain) to.now) base.now to.now ≡ Some (r.0.now, r.1.now)) }
{
    if word != b"backup".as_slice() || !is_base(base.as_bytes()) || !is_base(to.as_bytes()) {
        return None;
    }
    match with_option(plain(), to.as_bytes()) {
        Some(_) => None,
        None => Some((base, to)),
    }
}

/// BASE and TO of `backup BASE TO`, each of 1 to 200 bytes. TO is no option, as `--try`. All other words are no form of it.
pub fn backup_of(words: &[String]) -> Option<(&str, &str)>
    ensures { MatchOption result (backup_of (map string_bytes words.now) ≡ None) (λ r. backup_of (map string_bytes words.now) ≡ Some (r.0.now, r.1.now)) }
{
    match words {
        [word, base, to] => backed_up(word.as_bytes(), base.as_str(), to.as_str()),
        _ => None,
    }
}
