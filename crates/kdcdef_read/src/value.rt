//! The value of an operand, by the kind of its row.
ghost use Rattle.std.specs.Prelude.{◌≡◌};
ghost use Rattle.kdcdef_read.specs.Numbers.{first_word, number_text, number_between};
ghost use Rattle.kdcdef_read.specs.Values.{number_in, class_in, redelivery_in, time_in, flag_of, call_of, blksize_of, choice_of, one_of, written_name, password_in, first_of, copies_in, second_word};
ghost use Rattle.kdcdef_read.specs.Values.{file_in, mode_in, value_of};

use crate::fault::Cause;
use crate::key_set::keys_in;
use crate::password::Password;
use crate::rows::{Choice, Kind};
use crate::words::is;
use application_types::kdcdef_types::CallUse;
use kd_base::{Name, NameOf, ProgName, decimal_of};
use texts::kdcdef_lex::{Items, RawItem, RawValue, Word};

/// What an operand says.
#[derive(Clone, Copy)]
pub enum Value {
    Name(Name),
    ProgName(ProgName),
    Number(u16),
    /// A TAC class.
    Class(u8),
    /// How often a job is delivered again.
    Redelivery(u8),
    /// The statements that a unit run may have.
    Time(u32),
    Call(CallUse),
    /// TYPE=A, STATUS=ON, RESTART=YES, USAGE=O; a KDCFILE that is DOUBLE.
    Flag(bool),
    Password(Password),
    /// A value that is read and not kept.
    Accepted,
    /// Codes of keys, which are taken over where the statement is made.
    Keys,
}

// The word that is the first item, and the items behind it.
fn first_word<'a>(items: &Items<'a>) -> Option<(Word<'a>, Items<'a>)>
    ensures { result ≡ first_word items.now }
{
    let (item, rest) = items.next()?;
    match item {
        Some(RawItem::Word(word)) => Some((word, rest)),
        _ => None,
    }
}

// The digits of a number: a word, or the word that is a list's first item.
fn number_text<'a>(raw: &RawValue<'a>) -> &'a [u8]
    ensures { result.now ≡ number_text raw.now }
{
    match raw {
        RawValue::Word(word) => word.as_slice(),
        RawValue::Listed(items) => match first_word(items) {
            Some((word, _)) => word.as_slice(),
            None => &[],
        },
        RawValue::Quoted(_) => &[],
    }
}

// A number from low to high.
pub(crate) fn number_between(low: u64, high: u64, raw: &RawValue) -> Result<u64, Cause>
    ensures { result ≡ number_between low high raw.now }
{
    let Some(number) = decimal_of(number_text(raw)) else {
        return Err(Cause::BadNumber);
    };
    if low <= number && number <= high {
        Ok(number)
    } else {
        Err(Cause::OutOfRange)
    }
}

fn number_in(low: u16, high: u16, raw: &RawValue) -> Result<Value, Cause>
    ensures { result ≡ number_in low high raw.now }
{
    let number = number_between(u64::from(low), u64::from(high), raw)?;
    Ok(Value::Number(number as u16))
}

fn class_in(raw: &RawValue) -> Result<Value, Cause>
    ensures { result ≡ class_in raw.now }
{
    let number = number_between(1, 16, raw)?;
    Ok(Value::Class(number as u8))
}

fn redelivery_in(raw: &RawValue) -> Result<Value, Cause>
    ensures { result ≡ redelivery_in raw.now }
{
    let number = number_between(0, 255, raw)?;
    Ok(Value::Redelivery(number as u8))
}

fn time_in(raw: &RawValue) -> Result<Value, Cause>
    ensures { result ≡ time_in raw.now }
{
    let number = number_between(0, 100_000, raw)?;
    if number == 0 {
        return Ok(Value::Time(100_000));
    }
    Ok(Value::Time(number as u32))
}

// A choice of two words.
fn flag_of(off: &str, on: &str, word: &[u8]) -> Option<Value>
    ensures { result ≡ flag_of off.now on.now word.now }
{
    if is(word, off) {
        Some(Value::Flag(false))
    } else if is(word, on) {
        Some(Value::Flag(true))
    } else {
        None
    }
}

fn call_of(word: &[u8]) -> Option<Value>
    ensures { result ≡ call_of word.now }
{
    if is(word, "BOTH") {
        Some(Value::Call(CallUse::Both))
    } else if is(word, "FIRST") {
        Some(Value::Call(CallUse::First))
    } else if is(word, "NEXT") {
        Some(Value::Call(CallUse::Next))
    } else {
        None
    }
}

fn blksize_of(word: &[u8]) -> Option<Value>
    ensures { result ≡ blksize_of word.now }
{
    if is(word, "2K") {
        Some(Value::Number(2048))
    } else if is(word, "4K") {
        Some(Value::Number(4096))
    } else if is(word, "8K") {
        Some(Value::Number(8192))
    } else {
        None
    }
}

fn choice_of(choice: Choice, word: &[u8]) -> Option<Value>
    ensures { result ≡ choice_of choice word.now }
{
    match choice {
        Choice::Type => flag_of("D", "A", word),
        Choice::Call => call_of(word),
        Choice::Status => flag_of("OFF", "ON", word),
        Choice::Restart => flag_of("NO", "YES", word),
        Choice::Usage => flag_of("D", "O", word),
        Choice::Blksize => blksize_of(word),
    }
}

fn one_of(choice: Choice, raw: &RawValue) -> Result<Value, Cause>
    ensures { result ≡ one_of choice raw.now }
{
    match raw {
        RawValue::Word(word) => match choice_of(choice, word.as_slice()) {
            Some(value) => Ok(value),
            None => Err(Cause::BadChoice),
        },
        _ => Err(Cause::BadChoice),
    }
}

// A name of at most N bytes.
fn written_name<const N: usize>(raw: &RawValue) -> Result<NameOf<N>, Cause>
    ensures { result ≡ written_name N raw.now }
{
    match raw {
        RawValue::Word(word) => match NameOf::from_bytes(word.as_slice()) {
            Some(name) => Ok(name),
            None => Err(Cause::BadName),
        },
        RawValue::Quoted(_) => Err(Cause::BadName),
        RawValue::Listed(_) => Err(Cause::BadChoice),
    }
}

fn password_in(raw: &RawValue) -> Result<Value, Cause>
    ensures { result ≡ password_in raw.now }
{
    match raw {
        RawValue::Word(word) => match Password::from_bytes(word.as_slice()) {
            Some(password) => Ok(Value::Password(password)),
            None => Err(Cause::OutOfRange),
        },
        RawValue::Quoted(bytes) => match Password::from_quoted(bytes) {
            Some(password) => Ok(Value::Password(password)),
            None => Err(Cause::OutOfRange),
        },
        RawValue::Listed(_) => Err(Cause::BadChoice),
    }
}

// A choice of two words, of which this profile has the first.
fn first_of(kept: &str, other: &str, word: &[u8]) -> Result<Value, Cause>
    ensures { result ≡ first_of kept.now other.now word.now }
{
    if is(word, kept) {
        Ok(Value::Accepted)
    } else if is(word, other) {
        Err(Cause::NotInProfile)
    } else {
        Err(Cause::BadChoice)
    }
}

// The second of two words, if the items are two.
fn second_word<'a>(items: &Items<'a>) -> Option<Word<'a>>
    ensures { result ≡ second_word items.now }
{
    let (_, rest) = first_word(items)?;
    let (word, rest) = first_word(&rest)?;
    if rest.next().is_some() {
        return None;
    }
    Some(word)
}

// How many copies of the file a word says.
fn copies_in(word: &[u8]) -> Result<Value, Cause>
    ensures { result ≡ copies_in word.now }
{
    match flag_of("SINGLE", "DOUBLE", word) {
        Some(value) => Ok(value),
        None => Err(Cause::BadChoice),
    }
}

fn file_in(raw: &RawValue) -> Result<Value, Cause>
    ensures { result ≡ file_in raw.now }
{
    match raw {
        RawValue::Word(_) => Ok(Value::Flag(false)),
        RawValue::Quoted(_) => Err(Cause::BadChoice),
        RawValue::Listed(items) => match second_word(items) {
            Some(word) => copies_in(word.as_slice()),
            None => Err(Cause::BadChoice),
        },
    }
}

fn mode_in(raw: &RawValue) -> Result<Value, Cause>
    ensures { result ≡ mode_in raw.now }
{
    match raw {
        RawValue::Word(word) => first_of("SECURE", "FAST", word.as_slice()),
        _ => Err(Cause::BadChoice),
    }
}

/// What an operand with this value says.
pub(crate) fn value_of(kind: Kind, raw: &RawValue) -> Result<Value, Cause>
    ensures { result ≡ value_of kind raw.now }
{
    match kind {
        Kind::Name => Ok(Value::Name(written_name(raw)?)),
        Kind::ProgName => Ok(Value::ProgName(written_name(raw)?)),
        Kind::Number(low, high) => number_in(low, high, raw),
        Kind::Class => class_in(raw),
        Kind::Redelivery => redelivery_in(raw),
        Kind::Time => time_in(raw),
        Kind::OneOf(choice) => one_of(choice, raw),
        Kind::Password => password_in(raw),
        Kind::File => file_in(raw),
        Kind::Mode => mode_in(raw),
        Kind::Keys => keys_in(raw),
        Kind::Unavailable => Err(Cause::NotInProfile),
    }
}
