//! What one line of a trail says.
ghost use Rattle.std.specs.{Prelude.{option_and_then}, Option.{option_copied}};
ghost use Rattle.record_codec.specs.Reads.{ReadsWhole};
ghost use Rattle.audit_trail.specs.{Lines.{one, two, three, so_many_bytes, two_numbers, kept_of, kind_of, record_key_of, key_of, row_of, end_of, said, line_in}, Reading.{words_after}};
ghost use Rattle.kd_base.specs.Text.{name_of, decimal_of};

use crate::entry::By;
use crate::hexadecimal::{bytes_of, so_many_bytes, value_of};
use crate::kept_reading::kept_of;
use crate::keyword::{Keyword, keyword_of};
use crate::word::{first_word, one, three, two};
use kd_base::{Name, decimal_of};
use kd_records::RecordKey;
use kdcs_types::{Change, Key, Row, Settled};
use record_codec::{Unread, key_in, row_in};
use std::alloc::Global;

/// A line of a trail.
#[derive(Drop)]
pub(crate) enum Line {
    /// The fingerprint.
    Trail([u8; 32]),
    /// The clock and the next job number at the start.
    Start(u64, u64),
    /// What made a commit.
    Made(By),
    /// The clock and the next job number after a commit.
    Commit(u64, u64),
    /// A row that is set or removed.
    Change(Change),
    End,
}

fn fingerprint_in(rest: Option<&[u8]>) -> Result<[u8; 32], Unread>
    ensures { ReadsWhole result (option_and_then (so_many_bytes 32) (one (words_after (option_copied rest.entry)))) }
{
    let Some(word) = one(rest) else {
        return Err(Unread::NotThere);
    };
    so_many_bytes(word)
}

fn number_in(word: &[u8]) -> Result<u64, Unread>
    ensures { ReadsWhole result (decimal_of word.now) }
{
    decimal_of(word).ok_or(Unread::NotThere)
}

fn ticks_in(rest: Option<&[u8]>) -> Result<u64, Unread>
    ensures { ReadsWhole result (option_and_then decimal_of (one (words_after (option_copied rest.entry)))) }
{
    let Some(word) = one(rest) else {
        return Err(Unread::NotThere);
    };
    number_in(word)
}

fn two_numbers(rest: Option<&[u8]>) -> Result<(u64, u64), Unread>
    ensures { ReadsWhole result (option_and_then two_numbers (two (words_after (option_copied rest.entry)))) }
{
    let Some((clock, next)) = two(rest) else {
        return Err(Unread::NotThere);
    };
    let clock = number_in(clock)?;
    Ok((clock, number_in(next)?))
}

fn lterm_in(rest: Option<&[u8]>) -> Result<Name, Unread>
    ensures { ReadsWhole result (option_and_then name_of (one (words_after (option_copied rest.entry)))) }
{
    let Some(word) = one(rest) else {
        return Err(Unread::NotThere);
    };
    Name::from_bytes(word).ok_or(Unread::NotThere)
}

fn settled_in(alloc: Global, rest: Option<&[u8]>) -> Result<Settled, Unread>
    ensures { ReadsWhole result (option_and_then kept_of (one (words_after (option_copied rest.entry)))) }
{
    let Some(word) = one(rest) else {
        return Err(Unread::NotThere);
    };
    let bytes = bytes_of(alloc, word)?;
    kept_of(alloc, bytes.as_slice())
}

// The kind of a row, from 1 to 6.
fn kind_of(word: &[u8]) -> Result<u8, Unread>
    ensures { ReadsWhole result (kind_of word.now) }
{
    match number_in(word)? {
        n @ 1..=6 => Ok(n as u8),
        _ => Err(Unread::NotThere),
    }
}

fn record_key_of(kind: &[u8], key: &[u8]) -> Result<RecordKey, Unread>
    ensures { ReadsWhole result (record_key_of (kind.now, key.now)) }
{
    let kind = kind_of(kind)?;
    let bytes = so_many_bytes(key)?;
    Ok(RecordKey { kind, bytes })
}

fn removed_key_in(rest: Option<&[u8]>) -> Result<Key, Unread>
    ensures { ReadsWhole result (option_and_then key_of (two (words_after (option_copied rest.entry)))) }
{
    let Some((kind, key)) = two(rest) else {
        return Err(Unread::NotThere);
    };
    key_in(&record_key_of(kind, key)?)
}

fn set_row_in(alloc: Global, rest: Option<&[u8]>) -> Result<Row, Unread>
    ensures { ReadsWhole result (option_and_then row_of (three (words_after (option_copied rest.entry)))) }
{
    let Some((kind, key, value)) = three(rest) else {
        return Err(Unread::NotThere);
    };
    let key = record_key_of(kind, key)?;
    let value = value_of(alloc, value)?;
    row_in(alloc, &key, value.as_slice())
}

fn end_in(rest: Option<&[u8]>) -> Result<Line, Unread>
    ensures { ReadsWhole result (end_of (words_after (option_copied rest.entry))) }
{
    match rest {
        None => Ok(Line::End),
        Some(_) => Err(Unread::NotThere),
    }
}

// What a keyword and the words after it say.
fn said(alloc: Global, keyword: Keyword, rest: Option<&[u8]>) -> Result<Line, Unread>
    ensures { ReadsWhole result (said keyword (words_after (option_copied rest.entry))) }
{
    match keyword {
        Keyword::Trail => Ok(Line::Trail(fingerprint_in(rest)?)),
        Keyword::Start => {
            let (clock, next) = two_numbers(rest)?;
            Ok(Line::Start(clock, next))
        }
        Keyword::Tick => Ok(Line::Made(By::Tick(ticks_in(rest)?))),
        Keyword::Shown => Ok(Line::Made(By::Shown(lterm_in(rest)?))),
        Keyword::Transaction => Ok(Line::Made(By::Transaction(settled_in(alloc, rest)?))),
        Keyword::Commit => {
            let (clock, next) = two_numbers(rest)?;
            Ok(Line::Commit(clock, next))
        }
        Keyword::Set => Ok(Line::Change(Change::Set(set_row_in(alloc, rest)?))),
        Keyword::Remove => Ok(Line::Change(Change::Remove(removed_key_in(rest)?))),
        Keyword::End => end_in(rest),
    }
}

/// What a line says, where it is a line of a trail.
pub(crate) fn line_in(alloc: Global, line: &[u8]) -> Result<Line, Unread>
    ensures { ReadsWhole result (line_in line.now) }
{
    let (word, rest) = first_word(line);
    let Some(keyword) = keyword_of(word) else {
        return Err(Unread::NotThere);
    };
    said(alloc, keyword, rest)
}
