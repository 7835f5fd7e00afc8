//! The statements of a unit. Fields and labels stand by name.

use kd_base::{Bytes, Mode, Variant};

/// What a unit can read of its run and of the last call.
#[derive(Clone, Copy, PartialEq, Eq)]
pub enum HeaderName {
    /// KCBENID, the user.
    Benid,
    /// KCLOGTER, the LTERM.
    Logter,
    /// KCTACVG, the first TAC of the service.
    Tacvg,
    /// KCTACAL, the TAC of this unit run.
    Tacal,
    /// KCRCCC, the code of the last call.
    Crccc,
    /// KCRLM, the length of what the last call read.
    Rlm,
}

/// What a statement reads.
#[derive(Drop)]
pub enum Operand {
    /// The bytes of a field.
    Field(Bytes),
    /// These bytes, at most 32,767.
    Literal(Bytes),
    /// These 1 to 18 digits.
    Digits(Bytes),
    Header(HeaderName),
    /// The bytes of a field without its trailing spaces.
    Trim(Bytes),
}

/// How two operands are to compare; the shorter is filled with spaces.
#[derive(Clone, Copy, PartialEq, Eq)]
pub enum Relation {
    Eq,
    Ne,
    Lt,
    Gt,
}

/// What a statement does. A target is the name of a field, a jump goes to the name of a label.
#[derive(Drop)]
pub enum Action {
    Move(Bytes, Operand),
    Join(Bytes, Operand, Operand),
    Add(Bytes, Operand),
    Sub(Bytes, Operand),
    Mul(Bytes, Operand),
    Div(Bytes, Operand),
    If(Operand, Relation, Operand, Bytes),
    Jump(Bytes),
    Init,
    Mget(Bytes),
    Mput(Operand),
    Fget(Bytes),
    /// To a TAC or an LTERM, a message.
    Fput(Operand, Operand),
    /// To a TAC or an LTERM, at days, hours, minutes and seconds, a message.
    Dput(Operand, Mode, Operand, Operand, Operand, Operand, Operand),
    SgetGb(Operand, Bytes),
    SputGb(Operand, Operand),
    SrelGb(Operand),
    SgetKp(Operand, Bytes),
    SgetRl(Operand, Bytes),
    SputMs(Operand, Operand),
    SrelLb(Operand),
    SgetUs(Operand, Bytes),
    SputUs(Operand, Operand),
    Gtda(Operand, Bytes),
    Ptda(Operand, Operand),
    UnlkGb(Operand),
    UnlkUs(Operand),
    UnlkDa(Operand),
    /// A variant, with its follow-up TAC where it takes one.
    Pend(Variant, Option<Operand>),
}

/// A statement, with the number of its line, counted from 1.
#[derive(Drop)]
pub struct UnitStatement {
    pub line: u32,
    pub action: Action,
}
