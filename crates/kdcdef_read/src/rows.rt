//! The table of operands: for a statement and a key, which values the operand may have, and what stands where it is
//! not given.
ghost use Rattle.std.specs.Prelude.{◌≡◌};
ghost use Rattle.kdcdef_read.specs.Table.{of_kind, of_kind_or, max_row, first_row, tac_row, user_row, pterm_row, lterm_row, class_row, kset_row, row_of};

use crate::value::Value;
use crate::words::{Key, Keyword};
use application_types::kdcdef_types::CallUse;

/// Operands whose value is one of a few words.
#[derive(Clone, Copy)]
pub enum Choice {
    /// D or A.
    Type,
    /// BOTH, FIRST or NEXT.
    Call,
    /// ON or OFF.
    Status,
    /// YES or NO.
    Restart,
    /// D or O.
    Usage,
    /// 2K, 4K or 8K.
    Blksize,
}

/// What an operand may have as its value.
#[derive(Clone, Copy)]
pub enum Kind {
    Name,
    ProgName,
    /// A number from the first to the second.
    Number(u16, u16),
    /// A TAC class from 1 to 16.
    Class,
    /// How often a job is delivered again, from 0 to 255.
    Redelivery,
    /// A number of statements from 0 to 100,000, where 0 stands for 100,000.
    Time,
    OneOf(Choice),
    /// A word or a quoted value of 1 to 16 bytes.
    Password,
    /// A base, or a list of a base and SINGLE or DOUBLE.
    File,
    /// SECURE; FAST is not in this profile.
    Mode,
    /// MASTER, a code from 1 to 4,000, or a list of one or more, all of which count.
    Keys,
    /// Not in this profile, whatever its value.
    Unavailable,
}

/// A row of the table. An operand with no default is missing where it is not given, or says nothing there.
#[derive(Clone, Copy)]
pub struct Row {
    pub kind: Kind,
    pub default: Option<Value>,
}

fn of_kind(kind: Kind) -> Option<Row>
    ensures { result ≡ of_kind kind }
{
    Some(Row {
        kind,
        default: None,
    })
}

fn of_kind_or(default: Value, kind: Kind) -> Option<Row>
    ensures { result ≡ of_kind_or default kind }
{
    Some(Row {
        kind,
        default: Some(default),
    })
}

fn max_row(key: Key) -> Option<Row>
    ensures { result ≡ max_row key }
{
    match key {
        Key::Appliname => of_kind(Kind::Name),
        Key::KdcFile => of_kind(Kind::File),
        Key::Tasks => of_kind(Kind::Number(1, 240)),
        Key::Asyntasks => of_kind(Kind::Number(0, 240)),
        Key::Gssbs => of_kind(Kind::Number(0, 30000)),
        Key::Lssbs => of_kind(Kind::Number(0, 1000)),
        Key::Kb => of_kind(Kind::Number(0, 32767)),
        Key::Spab => of_kind(Kind::Number(0, 32767)),
        Key::Nb => of_kind(Kind::Number(1, 32700)),
        Key::Pgpool => of_kind(Kind::Number(16, 30000)),
        Key::Reswait => of_kind(Kind::Number(0, 32767)),
        Key::Blksize => of_kind(Kind::OneOf(Choice::Blksize)),
        Key::Applimode => of_kind(Kind::Mode),
        Key::Redelivery => of_kind(Kind::Redelivery),
        _ => None,
    }
}

// The first operand alone, which has no key.
fn first_row(kind: Kind, key: Key) -> Option<Row>
    ensures { result ≡ first_row kind key }
{
    match key {
        Key::First => of_kind(kind),
        _ => None,
    }
}

fn tac_row(key: Key) -> Option<Row>
    ensures { result ≡ tac_row key }
{
    match key {
        Key::Program => of_kind(Kind::ProgName),
        Key::Type => of_kind_or(Value::Flag(false), Kind::OneOf(Choice::Type)),
        Key::Call => of_kind_or(Value::Call(CallUse::Both), Kind::OneOf(Choice::Call)),
        Key::Status => of_kind_or(Value::Flag(true), Kind::OneOf(Choice::Status)),
        Key::TacClass => of_kind(Kind::Class),
        Key::Time => of_kind_or(Value::Time(1000), Kind::Time),
        Key::Lock => of_kind(Kind::Number(1, 4000)),
        _ => first_row(Kind::Name, key),
    }
}

fn user_row(key: Key) -> Option<Row>
    ensures { result ≡ user_row key }
{
    match key {
        Key::Pass => of_kind(Kind::Password),
        Key::Restart => of_kind_or(Value::Flag(true), Kind::OneOf(Choice::Restart)),
        Key::Kset => of_kind(Kind::Name),
        _ => first_row(Kind::Name, key),
    }
}

fn pterm_row(key: Key) -> Option<Row>
    ensures { result ≡ pterm_row key }
{
    match key {
        Key::Lterm => of_kind(Kind::Name),
        _ => first_row(Kind::Name, key),
    }
}

fn lterm_row(key: Key) -> Option<Row>
    ensures { result ≡ lterm_row key }
{
    match key {
        Key::Usage => of_kind_or(Value::Flag(false), Kind::OneOf(Choice::Usage)),
        Key::Lock => of_kind(Kind::Unavailable),
        Key::Kset => of_kind(Kind::Name),
        _ => first_row(Kind::Name, key),
    }
}

fn class_row(key: Key) -> Option<Row>
    ensures { result ≡ class_row key }
{
    match key {
        Key::First => of_kind(Kind::Class),
        Key::Tasks => of_kind_or(Value::Number(240), Kind::Number(0, 240)),
        _ => None,
    }
}

fn kset_row(key: Key) -> Option<Row>
    ensures { result ≡ kset_row key }
{
    match key {
        Key::Keys => of_kind(Kind::Keys),
        _ => first_row(Kind::Name, key),
    }
}

/// The row of an operand, where the statement keeps one with this key.
pub(crate) fn row_of(keyword: Keyword, key: Key) -> Option<Row>
    ensures { result ≡ row_of keyword key }
{
    match keyword {
        Keyword::Max => max_row(key),
        Keyword::Program => first_row(Kind::ProgName, key),
        Keyword::Tac => tac_row(key),
        Keyword::User => user_row(key),
        Keyword::Pterm => pterm_row(key),
        Keyword::Lterm => lterm_row(key),
        Keyword::Tls | Keyword::Uls => first_row(Kind::Name, key),
        Keyword::TacClass => class_row(key),
        Keyword::Kset => kset_row(key),
    }
}
