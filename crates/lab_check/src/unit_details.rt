//! What of a line of a units text, or of a script, is at fault, and what would be right.

use crate::definition_details::with_right;
use crate::draft::Draft;
use crate::lab_findings::{LineKind, first_word, is_near, kind_of, up_to_last, without_blanks};
use crate::parts::joined;
use application_check::unit_check::FitFault;
use application_types::generation::Generation;
use kd_base::{Bytes, OutOfMemory, ProgName};
use std::alloc::Global;
use unit_read::UnitFault;

/// First words of lines, and what is right behind them.
type Words = &'static [(&'static str, &'static str)];

const STATEMENTS: Words = &[
    ("MOVE", "f op"),
    ("JOIN", "f op op"),
    ("ADD", "f op"),
    ("SUB", "f op"),
    ("MUL", "f op"),
    ("DIV", "f op"),
    ("IF", "op EQ|NE|LT|GT op label"),
    ("JUMP", "label"),
    ("INIT", "alone"),
    ("MGET", "f"),
    ("MPUT", "op"),
    ("FGET", "f"),
    ("FPUT", "to op"),
    ("DPUT", "to R|A d h m s op"),
    ("SGET", "GB|KP|RL|US name f"),
    ("SPUT", "GB|MS|US name op"),
    ("SREL", "GB|LB name"),
    ("GTDA", "name f"),
    ("PTDA", "name op"),
    ("UNLK", "GB|US|DA name"),
    ("PEND", "FI|FR|ER|RS alone, KP|PR|PA|RE|SP|FC op"),
    ("UNIT", "name"),
    ("FIELD", "name KB|SPAB 0..32767 1..32767"),
    ("END", "alone"),
];

const COMMANDS: Words = &[
    ("IN", "PTERM,USAGE=D"),
    ("DROP", "PTERM,USAGE=D"),
    ("PRINT", "PTERM,USAGE=O"),
    ("RUN", "0..1000000"),
    ("TICK", "0..999999999999"),
    ("TURN", "1..TASKS"),
    ("RESTART", "alone"),
];

/// Words of statements that name no field.
const NO_FIELDS: &[&str] = &[
    "GB", "KP", "RL", "US", "MS", "LB", "DA", "EQ", "NE", "LT", "GT", "R", "A", "PR", "PA", "RE",
    "SP", "FC", "KCBENID", "KCLOGTER", "KCTACVG", "KCTACAL", "KCRCCC", "KCRLM",
];

/// A piece of a unit that has a name.
#[derive(Clone, Copy, PartialEq, Eq)]
enum Piece {
    Unit,
    Field,
    Label,
}

// What is right behind this first word.
fn right_behind(words: Words, word: &[u8]) -> Option<&'static str> {
    for (known, right) in words {
        if word == known.as_bytes() {
            return Some(*right);
        }
    }
    None
}

// The first of the words that is nearly this, or it in another case; empty where there is none.
fn near_word(words: Words, word: &[u8]) -> &'static str {
    for (known, _) in words {
        if word.eq_ignore_ascii_case(known.as_bytes()) || is_near(word, known.as_bytes()) {
            return *known;
        }
    }
    ""
}

// The name in the line, if it is such a piece.
fn name_in(line: &[u8], wanted: Piece) -> Option<&[u8]> {
    match (kind_of(line), wanted) {
        (LineKind::Unit(name), Piece::Unit) | (LineKind::Label(name), Piece::Label) => Some(name),
        (LineKind::Field(rest), Piece::Field) => {
            let (name, _) = first_word(rest);
            Some(name)
        }
        _ => None,
    }
}

// The name of such a piece that is this, or is nearly this: of the unit of the line, but of units of all.
fn piece_like<'a>(
    draft: &'a Draft,
    line: u32,
    wanted: Piece,
    word: &[u8],
    is_this: bool,
) -> &'a [u8] {
    let mut found: &[u8] = b"";
    let mut number: u32 = 1;
    for _ in 0..draft.len() {
        let content = draft.content(number);
        if let LineKind::Unit(_) = kind_of(content) {
            if wanted != Piece::Unit {
                if number > line {
                    break;
                }
                found = b"";
            }
        }
        if let Some(name) = name_in(content, wanted) {
            if (is_this && name == word) || (!is_this && is_near(word, name)) {
                found = name;
            }
        }
        number = number.saturating_add(1);
    }
    found
}

// The line with a quote in place of each byte of its literals, so that blanks part its words.
fn without_literals(alloc: Global, line: &[u8]) -> Result<Bytes, OutOfMemory> {
    let mut text = Bytes::new(alloc);
    let mut is_inside = false;
    for byte in line {
        if *byte == b'\'' {
            is_inside = !is_inside;
        }
        text.push(if is_inside { b'\'' } else { *byte })?;
    }
    Ok(text)
}

fn is_no_field(word: &[u8]) -> bool {
    for other in NO_FIELDS {
        if word == other.as_bytes() {
            return true;
        }
    }
    false
}

// The field that a word of a statement names, if it may name one.
fn field_in(word: &[u8]) -> Option<&[u8]> {
    let name = match word.strip_prefix(b"TRIM(") {
        Some([name @ .., b')']) => name,
        _ => word,
    };
    match name {
        [first, ..] if first.is_ascii_alphabetic() && !is_no_field(name) => Some(name),
        _ => None,
    }
}

// The first of the words that names no field of the unit of the line, though it may name one.
fn unknown_field<'a>(draft: &Draft, line: u32, words: &'a [u8]) -> Option<&'a [u8]> {
    let mut rest = words;
    for _ in 0..words.len() {
        let (word, behind) = first_word(rest);
        if let Some(name) = field_in(word) {
            if piece_like(draft, line, Piece::Field, name, true).is_empty() {
                return Some(name);
            }
        }
        rest = behind;
    }
    None
}

// The first word of a statement that names no field of its unit, and a field that is nearly it.
fn field_detail(alloc: Global, draft: &Draft, line: u32) -> Result<Bytes, OutOfMemory> {
    let content = draft.content(line);
    if let Some(name) = name_in(content, Piece::Field) {
        return Bytes::from_slice(alloc, name);
    }
    let text = without_literals(alloc, content)?;
    let (_, operands) = first_word(without_blanks(text.as_slice()));
    match unknown_field(draft, line, operands) {
        Some(name) => with_right(
            alloc,
            name,
            piece_like(draft, line, Piece::Field, name, false),
        ),
        None => Ok(Bytes::new(alloc)),
    }
}

// The first word of a line that is no piece of a unit, and what would be right behind it or in its place.
fn statement_detail(alloc: Global, line: &[u8]) -> Result<Bytes, OutOfMemory> {
    let (word, _) = first_word(without_blanks(line));
    let right = match right_behind(STATEMENTS, word) {
        Some(right) => right,
        None => near_word(STATEMENTS, word),
    };
    with_right(alloc, word, right.as_bytes())
}

/// What is at fault in a line of a units text, and what would be right; empty where that is not known.
pub(crate) fn unit_detail(
    alloc: Global,
    draft: &Draft,
    fault: UnitFault,
) -> Result<Bytes, OutOfMemory> {
    let content = draft.content(fault.line());
    match fault {
        UnitFault::BadStatement(_) => statement_detail(alloc, content),
        UnitFault::BadField(line) => field_detail(alloc, draft, line),
        UnitFault::LabelTwice(_) => {
            Bytes::from_slice(alloc, name_in(content, Piece::Label).unwrap_or(b""))
        }
        UnitFault::UnitTwice(_) => {
            Bytes::from_slice(alloc, name_in(content, Piece::Unit).unwrap_or(b""))
        }
        UnitFault::NoEnd(_) => Bytes::from_slice(alloc, b"END"),
        UnitFault::TooLong(_) | UnitFault::Memory => Ok(Bytes::new(alloc)),
    }
}

// The bytes behind the last blank of a line.
fn last_word(line: &[u8]) -> &[u8] {
    let mut last: &[u8] = b"";
    let mut rest = without_blanks(line);
    for _ in 0..line.len() {
        if rest.is_empty() {
            break;
        }
        let (word, behind) = first_word(rest);
        last = word;
        rest = behind;
    }
    last
}

// The first TAC that is nearly a literal, which is the last word of a line.
fn near_tac<'a>(generation: &'a Generation, literal: &[u8]) -> &'a [u8] {
    let bare = match literal {
        [b'\'', name @ .., b'\''] => name,
        _ => literal,
    };
    let tacs = generation.tacs();
    for i in 0..tacs.len() {
        if let Some((name, _)) = tacs.get_index(i) {
            if is_near(bare, name.as_slice()) {
                return name.as_slice();
            }
        }
    }
    b""
}

// A field that is past its area, and the places that the area has.
fn area_detail(alloc: Global, generation: &Generation, line: &[u8]) -> Result<Bytes, OutOfMemory> {
    let (name, rest) = match kind_of(line) {
        LineKind::Field(rest) => first_word(rest),
        _ => (line, line),
    };
    let (area, _) = first_word(rest);
    let limits = generation.max();
    let most = if area == b"KB".as_slice() {
        limits.kb
    } else {
        limits.spab
    };
    let most = format!(in alloc; "{most}")?;
    joined(alloc, &[name, b" ", area, b" 0..", most.as_bytes()])
}

/// What does not fit in a line of units, or that the unit of this program is missing, and what would be right.
pub(crate) fn fit_detail(
    alloc: Global,
    draft: &Draft,
    generation: &Generation,
    program: Option<ProgName>,
    fault: FitFault,
) -> Result<Bytes, OutOfMemory> {
    let line = fault.line();
    let word = last_word(draft.content(line));
    match (fault, program) {
        (FitFault::NoUnit(_), Some(name)) => {
            let near = piece_like(draft, line, Piece::Unit, name.as_slice(), false);
            with_right(alloc, name.as_slice(), near)
        }
        (FitFault::NoLabel(_), _) => {
            with_right(
                alloc,
                word,
                piece_like(draft, line, Piece::Label, word, false),
            )
        }
        (FitFault::FieldPastArea(_), _) => area_detail(alloc, generation, draft.content(line)),
        (FitFault::LiteralFollowUp(_), _) => { with_right(alloc, word, near_tac(generation, word)) }
        (FitFault::NoUnit(_) | FitFault::Memory, _) => Ok(Bytes::new(alloc)),
    }
}

/// What is at fault in a line of a script, and what would be right: of a command its first operand, else the word.
pub(crate) fn command_detail(alloc: Global, line: &[u8]) -> Result<Bytes, OutOfMemory> {
    let (word, rest) = first_word(up_to_last(line));
    let Some(right) = right_behind(COMMANDS, word) else {
        return with_right(alloc, word, near_word(COMMANDS, word).as_bytes());
    };
    let (operand, _) = first_word(rest);
    let text = with_right(alloc, word, operand)?;
    with_right(alloc, text.as_slice(), right.as_bytes())
}
