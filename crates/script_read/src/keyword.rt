//! The keywords of the commands whose words are parted by spaces.
ghost use Rattle.std.specs.Prelude.{◌≡◌, find};
ghost use Rattle.script_read.specs.{Script.{same}, Commands.{spelling, keyword_of}};

use crate::word::same;

/// The keyword that a command begins with. `IN` is none, since one space alone parts its words.
#[derive(Clone, Copy)]
pub(crate) enum Keyword {
    Tick,
    Run,
    Turn,
    Drop,
    Print,
    Restart,
}

const KEYWORDS: [Keyword; 6] = [
    Keyword::Tick,
    Keyword::Run,
    Keyword::Turn,
    Keyword::Drop,
    Keyword::Print,
    Keyword::Restart,
];

fn spelling(keyword: Keyword) -> &'static [u8]
    ensures { result.now ≡ spelling keyword }
{
    match keyword {
        Keyword::Tick => b"TICK",
        Keyword::Run => b"RUN",
        Keyword::Turn => b"TURN",
        Keyword::Drop => b"DROP",
        Keyword::Print => b"PRINT",
        Keyword::Restart => b"RESTART",
    }
}

// The first of these keywords that is spelled so.
fn find_keyword(word: &[u8], keywords: &[Keyword]) -> Option<Keyword>
    ensures { result ≡ find (λ keyword. same word.now (spelling keyword)) keywords.now }
{
    for keyword in keywords {
        if same(word, spelling(*keyword)) {
            return Some(*keyword);
        }
    }
    None
}

/// The keyword that is spelled so.
pub(crate) fn keyword_of(word: &[u8]) -> Option<Keyword>
    ensures { result ≡ keyword_of word.now }
{
    find_keyword(word, &KEYWORDS)
}
