//! The words of KDCDEF: keywords, and keys of operands that the table has. They may be written in either case.
ghost use Rattle.std.specs.{Prelude.{◌≡◌, ◌<◌}, Str.{str_eq_ignore_ascii_case}};
ghost use Rattle.kdcdef_read.specs.Words.{kept_of, is_passed, form_of, limit_key, entry_key, key_of, place_of};

use texts::first_true;

/// A statement with operands that are kept.
#[derive(Clone, Copy)]
pub enum Keyword {
    Max,
    Program,
    Tac,
    User,
    Pterm,
    Lterm,
    Tls,
    Uls,
    TacClass,
    Kset,
}

/// What a keyword stands for.
#[derive(Clone, Copy)]
pub enum Form {
    Kept(Keyword),
    /// A statement that is read and not kept.
    Passed,
    End,
}

/// The key of an operand that a statement may have.
#[derive(Clone, Copy)]
pub enum Key {
    /// The first operand, which has no key.
    First,
    Appliname,
    KdcFile,
    Tasks,
    Asyntasks,
    Gssbs,
    Lssbs,
    Kb,
    Spab,
    Nb,
    Pgpool,
    Reswait,
    Blksize,
    Applimode,
    Redelivery,
    Program,
    Type,
    Call,
    Status,
    TacClass,
    Time,
    Lock,
    Pass,
    Restart,
    Kset,
    Lterm,
    Usage,
    Keys,
}

/// How many keys there are.
pub const KEYS: usize = 28;

pub(crate) fn is(word: &[u8], text: &str) -> bool
    ensures { result ≡ str_eq_ignore_ascii_case word.now text.now }
{
    word.eq_ignore_ascii_case(text.as_bytes())
}

fn kept_of(word: &[u8]) -> Option<Keyword>
    ensures { result ≡ kept_of word.now }
{
    first_true(&[
        (is(word, "MAX"), Keyword::Max),
        (is(word, "PROGRAM"), Keyword::Program),
        (is(word, "TAC"), Keyword::Tac),
        (is(word, "USER"), Keyword::User),
        (is(word, "PTERM"), Keyword::Pterm),
        (is(word, "LTERM"), Keyword::Lterm),
        (is(word, "TLS"), Keyword::Tls),
        (is(word, "ULS"), Keyword::Uls),
        (is(word, "TACCLASS"), Keyword::TacClass),
        (is(word, "KSET"), Keyword::Kset),
    ])
}

// The nine statements that are read and not kept.
fn is_passed(word: &[u8]) -> bool
    ensures { result ≡ is_passed word.now }
{
    is(word, "FORMSYS")
        || is(word, "ROOT")
        || is(word, "OPTION")
        || is(word, "EXIT")
        || is(word, "MESSAGE")
        || is(word, "BCAMAPPL")
        || is(word, "RESERVE")
        || is(word, "SIGNON")
        || is(word, "ACCOUNT")
}

pub(crate) fn form_of(word: &[u8]) -> Option<Form>
    ensures { result ≡ form_of word.now }
{
    if let Some(keyword) = kept_of(word) {
        Some(Form::Kept(keyword))
    } else if is_passed(word) {
        Some(Form::Passed)
    } else if is(word, "END") {
        Some(Form::End)
    } else {
        None
    }
}

// The keys of MAX.
fn limit_key(word: &[u8]) -> Option<Key>
    ensures { result ≡ limit_key word.now }
{
    first_true(&[
        (is(word, "APPLINAME"), Key::Appliname),
        (is(word, "KDCFILE"), Key::KdcFile),
        (is(word, "TASKS"), Key::Tasks),
        (is(word, "ASYNTASKS"), Key::Asyntasks),
        (is(word, "GSSBS"), Key::Gssbs),
        (is(word, "LSSBS"), Key::Lssbs),
        (is(word, "KB"), Key::Kb),
        (is(word, "SPAB"), Key::Spab),
        (is(word, "NB"), Key::Nb),
        (is(word, "PGPOOL"), Key::Pgpool),
        (is(word, "RESWAIT"), Key::Reswait),
        (is(word, "BLKSIZE"), Key::Blksize),
        (is(word, "APPLIMODE"), Key::Applimode),
        (is(word, "REDELIVERY"), Key::Redelivery),
    ])
}

// The other keys.
fn entry_key(word: &[u8]) -> Option<Key>
    ensures { result ≡ entry_key word.now }
{
    first_true(&[
        (is(word, "PROGRAM"), Key::Program),
        (is(word, "TYPE"), Key::Type),
        (is(word, "CALL"), Key::Call),
        (is(word, "STATUS"), Key::Status),
        (is(word, "TACCLASS"), Key::TacClass),
        (is(word, "TIME"), Key::Time),
        (is(word, "LOCK"), Key::Lock),
        (is(word, "PASS"), Key::Pass),
        (is(word, "RESTART"), Key::Restart),
        (is(word, "KSET"), Key::Kset),
        (is(word, "LTERM"), Key::Lterm),
        (is(word, "USAGE"), Key::Usage),
        (is(word, "KEYS"), Key::Keys),
    ])
}

pub(crate) fn key_of(word: &[u8]) -> Option<Key>
    ensures { result ≡ key_of word.now }
{
    match limit_key(word) {
        Some(key) => Some(key),
        None => entry_key(word),
    }
}

/// The place of a key among all keys.
pub(crate) fn place_of(key: Key) -> usize
    ensures place { result ≡ place_of key }
    ensures within { result < 28 }
{
    key as usize
}
