//! The keywords that lines begin with.
ghost use Rattle.std.specs.Prelude.{◌≡◌, find, bytes_eq};
ghost use Rattle.audit_trail.specs.Lines.{spelling, keyword_of};

/// The keyword that a line of a trail begins with.
#[derive(Clone, Copy)]
pub(crate) enum Keyword {
    /// `TRAIL`: the fingerprint.
    Trail,
    /// `START`: the numbers of the tables at the start.
    Start,
    /// `N`: a commit of a TICK.
    Tick,
    /// `O`: a commit of KDCOUT or PRINT.
    Shown,
    /// `T`: a commit of a transaction.
    Transaction,
    /// `C`: the numbers after a commit.
    Commit,
    /// `S`: a record that is set.
    Set,
    /// `D`: a record that is removed.
    Remove,
    /// `END`.
    End,
}

const KEYWORDS: [Keyword; 9] = [
    Keyword::Trail,
    Keyword::Start,
    Keyword::Tick,
    Keyword::Shown,
    Keyword::Transaction,
    Keyword::Commit,
    Keyword::Set,
    Keyword::Remove,
    Keyword::End,
];

pub(crate) fn spelling(keyword: Keyword) -> &'static [u8]
    ensures { result.now ≡ spelling keyword }
{
    match keyword {
        Keyword::Trail => b"TRAIL",
        Keyword::Start => b"START",
        Keyword::Tick => b"N",
        Keyword::Shown => b"O",
        Keyword::Transaction => b"T",
        Keyword::Commit => b"C",
        Keyword::Set => b"S",
        Keyword::Remove => b"D",
        Keyword::End => b"END",
    }
}

// The first of these keywords that is spelled so.
fn find_keyword(word: &[u8], keywords: &[Keyword]) -> Option<Keyword>
    ensures { result ≡ find (λ keyword. bytes_eq word.now (spelling keyword)) keywords.now }
{
    for keyword in keywords {
        if word == spelling(*keyword) {
            return Some(*keyword);
        }
    }
    None
}

/// The keyword that is spelled so.
pub(crate) fn keyword_of(word: &[u8]) -> Option<Keyword>
    ensures { result ≡ keyword_of word.now }
{
    find_keyword(word, &KEYWORDS)
}
