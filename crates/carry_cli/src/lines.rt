//! The lines that tell what the files of a BASE are.
ghost use Rattle.std.specs.Prelude.{◌≡◌, ◌++◌, IfOk, codes};
ghost use Rattle.hex.specs.Hex.{encode_lower};
ghost use Rattle.carry_cli.specs.Lines.{both_text, counting_text, goes_text, is_shut, is_single, kind_text, makes_text, making_text, next_text, none_by, one_text, own_text, refused_text, said_text, state_lines, two_text};

use crate::kinds::{Counting, Kind, Making, Next, Said, State, Why};
use std::alloc::{AllocError, Global};

// Whether a file with this fingerprint is of the texts.
fn own_text(said: &Said, fingerprint: &[u8; 32]) -> &'static str
    ensures { result.now ≡ own_text said.now fingerprint.now }
{
    match said {
        Said::Single(print) | Said::Double(print) => {
            if *print == *fingerprint {
                " OWN\n"
            } else {
                " OTHER\n"
            }
        }
        Said::Refused | Said::Unread => "\n",
    }
}

fn making_text(alloc: Global, said: &Said, made: &Making) -> Result<Vec<u8>, AllocError>
    ensures { IfOk result (λ text. text.items ≡ making_text said.now made.now) }
{
    let Making {
        blksize,
        pgpool,
        used,
        fingerprint,
    } = *made;
    let pages = format!(in alloc; " PAGES {used} OF {pgpool} BLKSIZE {blksize} TEXTS ")?;
    let digits = hex::encode(alloc, fingerprint.as_slice())?;
    let mut text = pages.into_bytes();
    text.extend_from_slice(digits.as_bytes())?;
    text.extend_from_slice(own_text(said, &fingerprint).as_bytes())?;
    Ok(text)
}

// What a file is, with the end of its line.
fn kind_text(alloc: Global, said: &Said, kind: &Kind) -> Result<Vec<u8>, AllocError>
    ensures { IfOk result (λ text. text.items ≡ kind_text said.now kind.now) }
{
    match kind {
        Kind::Missing => Vec::from_slice(alloc, b"NOT THERE\n"),
        Kind::Empty => Vec::from_slice(alloc, b"EMPTY\n"),
        Kind::Shut => Vec::from_slice(alloc, b"SHUT\n"),
        Kind::NoKdcfile => Vec::from_slice(alloc, b"NO KDCFILE\n"),
        Kind::Single(made) => {
            let mut text = Vec::from_slice(alloc, b"SINGLE")?;
            text.extend_from_slice(&making_text(alloc, said, made)?)?;
            Ok(text)
        }
        Kind::Copy(sequence, made) => {
            let mut text = format!(in alloc; "COPY SEQUENCE {sequence}")?.into_bytes();
            text.extend_from_slice(&making_text(alloc, said, made)?)?;
            Ok(text)
        }
    }
}

// What the texts are that have this fingerprint.
fn print_text(alloc: Global, front: &[u8], fingerprint: &[u8; 32]) -> Result<Vec<u8>, AllocError>
    ensures { IfOk result (λ text. text.items ≡ front.now ++ encode_lower fingerprint.now ++ codes "\n") }
{
    let digits = hex::encode(alloc, fingerprint.as_slice())?;
    let mut text = Vec::from_slice(alloc, front)?;
    text.extend_from_slice(digits.as_bytes())?;
    text.extend_from_slice(b"\n")?;
    Ok(text)
}

fn said_text(alloc: Global, said: &Said) -> Result<Vec<u8>, AllocError>
    ensures { IfOk result (λ text. text.items ≡ said_text said.now) }
{
    match said {
        Said::Single(print) => print_text(alloc, b"TEXTS SINGLE ", print),
        Said::Double(print) => print_text(alloc, b"TEXTS DOUBLE ", print),
        Said::Refused => Vec::from_slice(alloc, b"TEXTS REFUSED\n"),
        Said::Unread => Vec::from_slice(alloc, b"TEXTS NOT READ\n"),
    }
}

fn counting_text(counting: &Counting) -> &'static str
    ensures { result.now ≡ counting_text counting.now }
{
    match counting {
        Counting::Neither => "NO COPY COUNTS\n",
        Counting::Alike => "COPIES ALIKE\n",
        Counting::First => "COPY A COUNTS\n",
        Counting::Second => "COPY B COUNTS\n",
    }
}

fn makes_text(said: &Said) -> &'static str
    ensures { result.now ≡ makes_text said.now }
{
    match said {
        Said::Single(_) => "RUN MAKES A\n",
        Said::Double(_) => "RUN MAKES A AND B\n",
        Said::Refused | Said::Unread => "",
    }
}

fn both_text(counting: &Counting) -> &'static str
    ensures { result.now ≡ both_text counting.now }
{
    match counting {
        Counting::Neither => "",
        Counting::Alike => "RUN GOES ON FROM A AND B\n",
        Counting::First => "RUN MENDS B FROM A\n",
        Counting::Second => "RUN MENDS A FROM B\n",
    }
}

fn goes_text(said: &Said, counting: &Counting) -> &'static str
    ensures { result.now ≡ goes_text said.now counting.now }
{
    match said {
        Said::Single(_) => "RUN GOES ON FROM A\n",
        Said::Double(_) => both_text(counting),
        Said::Refused | Said::Unread => "",
    }
}

// Why one file is refused that stands for no tables.
fn one_text(kind: &Kind) -> &'static str
    ensures { result.now ≡ one_text kind.now }
{
    match kind {
        Kind::Missing | Kind::Empty | Kind::NoKdcfile | Kind::Single(_) => {
            "RUN REFUSES NOT A KDCFILE\n"
        }
        Kind::Shut => "RUN REFUSES A MAKING THAT NEVER ENDED\n",
        Kind::Copy(_, _) => "RUN REFUSES A COPY UNDER SINGLE\n",
    }
}

fn is_single(kind: &Kind) -> bool
    ensures { result ≡ is_single kind.now }
{
    match kind {
        Kind::Single(_) => true,
        Kind::Missing | Kind::Empty | Kind::Shut | Kind::NoKdcfile | Kind::Copy(_, _) => false,
    }
}

fn is_shut(kind: &Kind) -> bool
    ensures { result ≡ is_shut kind.now }
{
    match kind {
        Kind::Shut => true,
        Kind::Missing | Kind::Empty | Kind::NoKdcfile | Kind::Single(_) | Kind::Copy(_, _) => false,
    }
}

fn none_text(single: bool, shut: bool) -> &'static str
    ensures { result.now ≡ none_by single shut }
{
    if single {
        "RUN REFUSES A SINGLE FILE UNDER DOUBLE\n"
    } else if shut {
        "RUN REFUSES A MAKING THAT NEVER ENDED\n"
    } else {
        "RUN REFUSES NOT A KDCFILE\n"
    }
}

// Why two files are refused of which none counts that stands for tables.
fn two_text(counting: &Counting, first: &Kind, second: &Kind) -> &'static str
    ensures { result.now ≡ two_text counting.now first.now second.now }
{
    match counting {
        Counting::Neither => none_text(
            is_single(first) || is_single(second),
            is_shut(first) || is_shut(second),
        ),
        Counting::Alike | Counting::First | Counting::Second => "RUN REFUSES NOT A KDCFILE\n",
    }
}

fn refused_text(said: &Said, counting: &Counting, first: &Kind, second: &Kind) -> &'static str
    ensures { result.now ≡ refused_text said.now counting.now first.now second.now }
{
    match said {
        Said::Single(_) => one_text(first),
        Said::Double(_) => two_text(counting, first, second),
        Said::Refused | Said::Unread => "",
    }
}

// What the next run does.
fn next_text(state: &State) -> &'static str
    ensures { result.now ≡ next_text state.now.next state.now.said state.now.counting state.now.first state.now.second }
{
    match &state.next {
        Next::Texts => "RUN REFUSES THE TEXTS\n",
        Next::Makes => makes_text(&state.said),
        Next::GoesOn => goes_text(&state.said, &state.counting),
        Next::Refuses(Why::NotKdcfile) => {
            refused_text(&state.said, &state.counting, &state.first, &state.second)
        }
        Next::Refuses(Why::OtherGeneration) => "RUN REFUSES OTHER GENERATION\n",
        Next::Refuses(Why::SequenceSpent) => "RUN REFUSES SEQUENCE SPENT\n",
    }
}

/// The lines that tell what the files of a BASE are.
pub(crate) fn state_lines(alloc: Global, state: &State) -> Result<Vec<u8>, AllocError>
    ensures { IfOk result (λ lines. lines.items ≡ state_lines state.now) }
{
    let mut lines = Vec::from_slice(alloc, b"A ")?;
    lines.extend_from_slice(&kind_text(alloc, &state.said, &state.first)?)?;
    lines.extend_from_slice(b"B ")?;
    lines.extend_from_slice(&kind_text(alloc, &state.said, &state.second)?)?;
    lines.extend_from_slice(&said_text(alloc, &state.said)?)?;
    lines.extend_from_slice(counting_text(&state.counting).as_bytes())?;
    lines.extend_from_slice(next_text(state).as_bytes())?;
    Ok(lines)
}
