//! The keywords that statements begin with.
ghost use Rattle.std.specs.Prelude.{◌≡◌, ◌≤◌, find, length, drop};
ghost use Rattle.unit_read.specs.Keys.{variant_keyword, first_keyword, second_keyword, is_front, keyword_count, begins_with, key_of};

use crate::line::same;
use crate::word::Word;
use kd_base::Variant;

/// A statement of the step language. Where an operation of a call has a keyword of its own, it is part of the key.
#[derive(Clone, Copy)]
pub(crate) enum Key {
    Move,
    Join,
    Add,
    Sub,
    Mul,
    Div,
    If,
    Jump,
    Init,
    Mget,
    Mput,
    Fget,
    Fput,
    Dput,
    SgetGb,
    SputGb,
    SrelGb,
    SgetKp,
    SgetRl,
    SputMs,
    SrelLb,
    SgetUs,
    SputUs,
    Gtda,
    Ptda,
    UnlkGb,
    UnlkUs,
    UnlkDa,
    Pend(Variant),
}

/// Each statement once.
const KEYS: [Key; 38] = [
    Key::Move,
    Key::Join,
    Key::Add,
    Key::Sub,
    Key::Mul,
    Key::Div,
    Key::If,
    Key::Jump,
    Key::Init,
    Key::Mget,
    Key::Mput,
    Key::Fget,
    Key::Fput,
    Key::Dput,
    Key::SgetGb,
    Key::SputGb,
    Key::SrelGb,
    Key::SgetKp,
    Key::SgetRl,
    Key::SputMs,
    Key::SrelLb,
    Key::SgetUs,
    Key::SputUs,
    Key::Gtda,
    Key::Ptda,
    Key::UnlkGb,
    Key::UnlkUs,
    Key::UnlkDa,
    Key::Pend(Variant::Kp),
    Key::Pend(Variant::Pr),
    Key::Pend(Variant::Pa),
    Key::Pend(Variant::Re),
    Key::Pend(Variant::Sp),
    Key::Pend(Variant::Fi),
    Key::Pend(Variant::Fc),
    Key::Pend(Variant::Fr),
    Key::Pend(Variant::Er),
    Key::Pend(Variant::Rs),
];

fn variant_keyword(variant: Variant) -> &'static str
    ensures { result.now ≡ variant_keyword variant }
{
    match variant {
        Variant::Kp => "KP",
        Variant::Pr => "PR",
        Variant::Pa => "PA",
        Variant::Re => "RE",
        Variant::Sp => "SP",
        Variant::Fi => "FI",
        Variant::Fc => "FC",
        Variant::Fr => "FR",
        Variant::Er => "ER",
        Variant::Rs => "RS",
    }
}

// The keyword of the call or the plain statement.
fn first_keyword(key: Key) -> &'static str
    ensures { result.now ≡ first_keyword key }
{
    match key {
        Key::Move => "MOVE",
        Key::Join => "JOIN",
        Key::Add => "ADD",
        Key::Sub => "SUB",
        Key::Mul => "MUL",
        Key::Div => "DIV",
        Key::If => "IF",
        Key::Jump => "JUMP",
        Key::Init => "INIT",
        Key::Mget => "MGET",
        Key::Mput => "MPUT",
        Key::Fget => "FGET",
        Key::Fput => "FPUT",
        Key::Dput => "DPUT",
        Key::SgetGb | Key::SgetKp | Key::SgetRl | Key::SgetUs => "SGET",
        Key::SputGb | Key::SputMs | Key::SputUs => "SPUT",
        Key::SrelGb | Key::SrelLb => "SREL",
        Key::Gtda => "GTDA",
        Key::Ptda => "PTDA",
        Key::UnlkGb | Key::UnlkUs | Key::UnlkDa => "UNLK",
        Key::Pend(_) => "PEND",
    }
}

// The keyword of the operation or the variant; empty where there is none.
fn second_keyword(key: Key) -> &'static str
    ensures { result.now ≡ second_keyword key }
{
    match key {
        Key::SgetGb | Key::SputGb | Key::SrelGb | Key::UnlkGb => "GB",
        Key::SgetKp => "KP",
        Key::SgetRl => "RL",
        Key::SputMs => "MS",
        Key::SrelLb => "LB",
        Key::SgetUs | Key::SputUs | Key::UnlkUs => "US",
        Key::UnlkDa => "DA",
        Key::Pend(variant) => variant_keyword(variant),
        _ => "",
    }
}

// Whether the word in front is this one.
fn is_front(words: &[Word], wanted: &str) -> bool
    ensures { result ≡ is_front words.now wanted.now }
{
    match words {
        [Word::Plain(word), ..] => same(word.as_slice(), wanted),
        _ => false,
    }
}

// Whether the words begin with the keywords of the statement.
fn begins_with(words: &[Word], key: Key) -> bool
    ensures { result ≡ begins_with words.now key }
{
    if !is_front(words, first_keyword(key)) {
        return false;
    }
    let second = second_keyword(key);
    second.is_empty() || is_front(&words[1..], second)
}

// The first of these statements that the words begin with.
fn find_key(words: &[Word], keys: &[Key]) -> Option<Key>
    ensures { result ≡ find (begins_with words.now) keys.now }
{
    for key in keys {
        if begins_with(words, *key) {
            return Some(*key);
        }
    }
    None
}

/// The statement that the words begin with.
pub(crate) fn key_of(words: &[Word]) -> Option<Key>
    ensures { result ≡ key_of words.now }
{
    find_key(words, &KEYS)
}

// How many keywords the statement begins with.
fn keyword_count(key: Key) -> usize
    ensures { result ≡ keyword_count key }
{
    if second_keyword(key).is_empty() { 1 } else { 2 }
}

/// What is after the keywords.
pub(crate) fn behind_keywords(words: &[Word], key: Key) -> &[Word]
    requires { keyword_count key ≤ length words.now }
    ensures { result.now ≡ drop (keyword_count key) words.now }
{
    let (_, operands) = words.split_at(keyword_count(key));
    operands
}
