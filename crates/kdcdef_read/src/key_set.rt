//! The codes of a key set, as KEYS gives them. Every item of a list counts.
ghost use Rattle.std.specs.{Prelude.{◌≡◌, IfOk}, List.{list_all}, Result.{result_ok}};
ghost use Rattle.kdcdef_read.specs.KeySets.{item_number, is_number, code_of, is_code, codes_of, one_code, listed_codes, key_set_in, codes_in, keys_in, is_keys, key_set_of};

use crate::fault::Cause;
use crate::value::{Value, number_between};
use crate::words::is;
use application_types::kdcdef_types::{Codes, KeySet};
use kd_base::{OutOfMemory, decimal_of};
use std::alloc::Global;
use texts::kdcdef_lex::{Items, Operands, RawItem, RawOperand, RawValue};

fn item_number(item: &Option<RawItem>) -> Option<u64>
    ensures { result ≡ item_number item.now }
{
    match item {
        Some(RawItem::Word(word)) => decimal_of(word.as_slice()),
        Some(RawItem::Quoted(_)) | None => None,
    }
}

fn is_number(item: &Option<RawItem>) -> bool
    ensures { result ≡ is_number item.now }
{
    item_number(item).is_some()
}

// The code that an item is, if it is one.
fn code_of(item: &Option<RawItem>) -> Option<u16>
    ensures { result ≡ code_of item.now }
{
    let number = item_number(item)?;
    if 1 <= number && number <= 4000 {
        Some(number as u16)
    } else {
        None
    }
}

fn is_code(item: &Option<RawItem>) -> bool
    ensures { result ≡ is_code item.now }
{
    code_of(item).is_some()
}

// The codes that the items are, if each is one.
fn codes_of(alloc: Global, items: &Items) -> Result<Option<Codes>, OutOfMemory>
    ensures { IfOk result (λ codes. codes ≡ codes_of items.now) }
{
    let mut codes = Codes::new(alloc);
    let mut left = items.again();
    while let Some((item, rest)) = left.next() {
        let Some(code) = code_of(&item) else {
            return Ok(None);
        };
        codes.push(code)?;
        left = rest;
    }
    Ok(Some(codes))
}

fn are_numbers(items: &Items) -> bool
    ensures { result ≡ list_all is_number items.now }
{
    let mut left = items.again();
    while let Some((item, rest)) = left.next() {
        if !is_number(&item) {
            return false;
        }
        left = rest;
    }
    true
}

fn are_codes(items: &Items) -> bool
    ensures { result ≡ list_all is_code items.now }
{
    let mut left = items.again();
    while let Some((item, rest)) = left.next() {
        if !is_code(&item) {
            return false;
        }
        left = rest;
    }
    true
}

// Whether the items are codes, which are not taken over here.
fn codes_in(items: &Items) -> Result<Value, Cause>
    ensures { result ≡ codes_in items.now }
{
    if items.next().is_none() {
        return Err(Cause::BadNumber);
    }
    if are_codes(items) {
        return Ok(Value::Keys);
    }
    if are_numbers(items) {
        return Err(Cause::OutOfRange);
    }
    Err(Cause::BadNumber)
}

/// Whether a value is one of KEYS, whose codes are not taken over here.
pub(crate) fn keys_in(raw: &RawValue) -> Result<Value, Cause>
    ensures { result ≡ keys_in raw.now }
{
    match raw {
        RawValue::Word(word) if is(word.as_slice(), "MASTER") => Ok(Value::Keys),
        RawValue::Word(_) => {
            let _code = number_between(1, 4000, raw)?;
            Ok(Value::Keys)
        }
        RawValue::Quoted(_) => Err(Cause::BadNumber),
        RawValue::Listed(items) => codes_in(items),
    }
}

// The key set of one code.
fn one_code(alloc: Global, raw: &RawValue) -> Result<Option<KeySet>, OutOfMemory>
    ensures { IfOk result (λ set. set ≡ result_ok (one_code raw.now)) }
{
    let Ok(code) = number_between(1, 4000, raw) else {
        return Ok(None);
    };
    let mut codes = Codes::new(alloc);
    codes.push(code as u16)?;
    Ok(Some(KeySet::Codes(codes)))
}

// The key set of a list of codes.
fn listed_codes(alloc: Global, items: &Items) -> Result<Option<KeySet>, OutOfMemory>
    ensures { IfOk result (λ set. set ≡ result_ok (listed_codes items.now)) }
{
    if items.next().is_none() {
        return Ok(None);
    }
    match codes_of(alloc, items)? {
        Some(codes) => Ok(Some(KeySet::Codes(codes))),
        None => Ok(None),
    }
}

// The key set that a value of KEYS is.
fn key_set_in(alloc: Global, raw: &RawValue) -> Result<Option<KeySet>, OutOfMemory>
    ensures { IfOk result (λ set. set ≡ result_ok (key_set_in raw.now)) }
{
    match raw {
        RawValue::Word(word) if is(word.as_slice(), "MASTER") => Ok(Some(KeySet::Master)),
        RawValue::Word(_) => one_code(alloc, raw),
        RawValue::Quoted(_) => Ok(None),
        RawValue::Listed(items) => listed_codes(alloc, items),
    }
}

fn is_keys(operand: &RawOperand) -> bool
    ensures { result ≡ is_keys operand.now.key }
{
    match &operand.key {
        Some(word) => is(word.as_slice(), "KEYS"),
        None => false,
    }
}

/// The key set that the operand KEYS of a statement gives.
pub(crate) fn key_set_of(alloc: Global, operands: &Operands) -> Result<Option<KeySet>, OutOfMemory>
    ensures { IfOk result (λ set. set ≡ key_set_of operands.now) }
{
    let mut left = operands.again();
    while let Some((operand, rest)) = left.next() {
        if is_keys(&operand) {
            return key_set_in(alloc, &operand.value);
        }
        left = rest;
    }
    Ok(None)
}
