//! The areas that statements ask for.

use crate::warned::joined;
use application_types::unit_types::{Action, HeaderName, Operand, Unit};
use kd_base::{Bytes, OutOfMemory, trim_end};
use std::alloc::Global;

/// A kind of areas. All but LSSBs are locked.
#[derive(Clone, Copy, PartialEq, Eq)]
pub(crate) enum Kind {
    Gssb,
    Lssb,
    Uls,
    Tls,
}

/// What a statement does with an area.
#[derive(Clone, Copy, PartialEq, Eq)]
pub(crate) enum Doing {
    Reads,
    Writes,
    Deletes,
    Frees,
}

/// An area, and what a statement does with it.
#[derive(Clone, Copy)]
pub(crate) struct Use<'a> {
    pub kind: Kind,
    pub doing: Doing,
    pub name: &'a Operand,
}

/// Whether two names are those of one area, wherever both are looked at without a store in between.
#[derive(Clone, Copy, PartialEq, Eq)]
pub(crate) enum Sameness {
    Same,
    MayBe,
    Other,
}

impl Kind {
    /// The word by which it is printed.
    pub fn word(&self) -> &'static str {
        match self {
            Kind::Gssb => "GSSB",
            Kind::Lssb => "LSSB",
            Kind::Uls => "ULS",
            Kind::Tls => "TLS",
        }
    }
}

/// The area that a statement asks for or frees.
pub(crate) fn use_of(action: &Action) -> Option<Use<'_>> {
    let (kind, doing, name) = match action {
        Action::SgetGb(name, _) => (Kind::Gssb, Doing::Reads, name),
        Action::SputGb(name, _) => (Kind::Gssb, Doing::Writes, name),
        Action::SrelGb(name) => (Kind::Gssb, Doing::Deletes, name),
        Action::UnlkGb(name) => (Kind::Gssb, Doing::Frees, name),
        Action::SgetKp(name, _) | Action::SgetRl(name, _) => (Kind::Lssb, Doing::Reads, name),
        Action::SputMs(name, _) => (Kind::Lssb, Doing::Writes, name),
        Action::SrelLb(name) => (Kind::Lssb, Doing::Deletes, name),
        Action::SgetUs(name, _) => (Kind::Uls, Doing::Reads, name),
        Action::SputUs(name, _) => (Kind::Uls, Doing::Writes, name),
        Action::UnlkUs(name) => (Kind::Uls, Doing::Frees, name),
        Action::Gtda(name, _) => (Kind::Tls, Doing::Reads, name),
        Action::Ptda(name, _) => (Kind::Tls, Doing::Writes, name),
        Action::UnlkDa(name) => (Kind::Tls, Doing::Frees, name),
        _ => return None,
    };
    Some(Use { kind, doing, name })
}

/// The bytes that an operand has in every run, without the spaces at their end.
pub(crate) fn fixed(operand: &Operand) -> Option<&[u8]> {
    match operand {
        Operand::Literal(bytes) | Operand::Digits(bytes) => Some(trim_end(bytes.as_slice())),
        _ => None,
    }
}

/// The field that an operand has the bytes of, spaces at their end aside.
pub(crate) fn field_of(operand: &Operand) -> Option<&Bytes> {
    match operand {
        Operand::Field(name) | Operand::Trim(name) => Some(name),
        _ => None,
    }
}

// Whether two headers are the same, and stay so in a run.
fn is_same_header(a: &Operand, b: &Operand) -> bool {
    match (a, b) {
        (Operand::Header(HeaderName::Crccc | HeaderName::Rlm), _) => false,
        (Operand::Header(x), Operand::Header(y)) => *x == *y,
        _ => false,
    }
}

/// Whether two names are those of one area.
pub(crate) fn same_area(a: &Operand, b: &Operand) -> Sameness {
    if let (Some(x), Some(y)) = (fixed(a), fixed(b)) {
        return if x == y {
            Sameness::Same
        } else {
            Sameness::Other
        };
    }
    if let (Some(x), Some(y)) = (field_of(a), field_of(b)) {
        if x.as_slice() == y.as_slice() {
            return Sameness::Same;
        }
    }
    if is_same_header(a, b) {
        Sameness::Same
    } else {
        Sameness::MayBe
    }
}

/// The field that a statement stores into.
pub(crate) fn stored(action: &Action) -> Option<&Bytes> {
    match action {
        Action::Move(f, _)
        | Action::Join(f, _, _)
        | Action::Add(f, _)
        | Action::Sub(f, _)
        | Action::Mul(f, _)
        | Action::Div(f, _)
        | Action::Mget(f)
        | Action::Fget(f)
        | Action::SgetGb(_, f)
        | Action::SgetKp(_, f)
        | Action::SgetRl(_, f)
        | Action::SgetUs(_, f)
        | Action::Gtda(_, f) => Some(f),
        _ => None,
    }
}

// Whether two fields of the unit have a byte in common.
fn overlap(unit: &Unit, a: &Bytes, b: &Bytes) -> bool {
    match (unit.field(a.as_slice()), unit.field(b.as_slice())) {
        (Some(x), Some(y)) => {
            x.spab == y.spab
                && x.offset < y.offset.saturating_add(y.length)
                && y.offset < x.offset.saturating_add(x.length)
        }
        _ => true,
    }
}

/// Whether a statement stores bytes of the field.
pub(crate) fn is_stored(unit: &Unit, action: &Action, field: &Bytes) -> bool {
    match stored(action) {
        Some(other) => overlap(unit, field, other),
        None => false,
    }
}

/// How an operand is written.
pub(crate) fn written(alloc: Global, operand: &Operand) -> Result<Bytes, OutOfMemory> {
    let (front, word, end): (&[u8], &[u8], &[u8]) = match operand {
        Operand::Field(name) => (b"", name.as_slice(), b""),
        Operand::Trim(name) => (b"TRIM(", name.as_slice(), b")"),
        Operand::Literal(bytes) => (b"'", bytes.as_slice(), b"'"),
        Operand::Digits(bytes) => (b"", bytes.as_slice(), b""),
        Operand::Header(HeaderName::Benid) => (b"KCBENID", b"", b""),
        Operand::Header(HeaderName::Logter) => (b"KCLOGTER", b"", b""),
        Operand::Header(HeaderName::Tacvg) => (b"KCTACVG", b"", b""),
        Operand::Header(HeaderName::Tacal) => (b"KCTACAL", b"", b""),
        Operand::Header(HeaderName::Crccc) => (b"KCRCCC", b"", b""),
        Operand::Header(HeaderName::Rlm) => (b"KCRLM", b"", b""),
    };
    joined(alloc, &[front, word, end])
}

// The word of a kind, and a name.
fn named<'a>(alloc: Global, kind: &'a str, name: &'a [u8]) -> Result<Bytes, OutOfMemory> {
    joined(alloc, &[kind.as_bytes(), b" ", name])
}

/// How an area is printed: the word of its kind, and its name as it is written.
pub(crate) fn area_words(alloc: Global, used: Use) -> Result<Bytes, OutOfMemory> {
    if let Some(name) = fixed(used.name) {
        return named(alloc, used.kind.word(), name);
    }
    let name = written(alloc, used.name)?;
    named(alloc, used.kind.word(), name.as_slice())
}
