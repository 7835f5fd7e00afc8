//! The operands of a statement, read from left to right.
ghost use Rattle.std.specs.Prelude.{◌≡◌, ◌+◌, ◌<◌, ◌≤◌, ◌^◌, true, length};
ghost use Rattle.kdcdef_read.specs.{Operands.{operand_key}, Filling.{after, with_row, with_operand, with_operands, read_operands}};

use crate::fault::Cause;
use crate::rows::{Row, row_of};
use crate::value::{Value, value_of};
use crate::words::{KEYS, Key, Keyword, key_of, place_of};
use texts::kdcdef_lex::{Operands, RawOperand};

/// For each key, whether an operand with it was given.
pub(crate) type Taken = [bool; KEYS];

/// What has been given so far.
#[derive(Clone, Copy)]
pub(crate) struct Given {
    /// What the operands of this statement say, each at the place of its key.
    pub slots: [Option<Value>; KEYS],
    /// The keys that were given, in this statement or before it.
    pub taken: Taken,
    /// How many operands were passed over.
    pub passed: u32,
}

// The key of an operand; the first one has none.
fn operand_key(first: bool, operand: &RawOperand) -> Option<Key>
    ensures { result ≡ operand_key first operand.now }
{
    match &operand.key {
        Some(word) => key_of(word.as_slice()),
        None if first => Some(Key::First),
        None => None,
    }
}

// Adds what an operand with this row says.
fn add_row(given: &mut Given, key: Key, row: Row, operand: &RawOperand) -> Result<(), Cause>
    ensures says { after result given.new ≡ with_row given.old key row operand.now }
    ensures passed { given.new.passed ≡ given.old.passed }
{
    let place = place_of(key);
    if given.taken[place] {
        return Err(Cause::OperandTwice);
    }
    let value = value_of(row.kind, &operand.value)?;
    given.slots[place] = Some(value);
    given.taken[place] = true;
    Ok(())
}

// Adds what an operand says.
fn add_operand(
    keyword: Keyword,
    first: bool,
    given: &mut Given,
    operand: &RawOperand,
) -> Result<(), Cause>
    requires { given.old.passed + 1 < 2 ^ 32 }
    ensures says { after result given.new ≡ with_operand keyword first given.old operand.now }
    ensures passed { given.new.passed ≤ given.old.passed + 1 }
{
    if let Some(key) = operand_key(first, operand) {
        if let Some(row) = row_of(keyword, key) {
            return add_row(given, key, row, operand);
        }
    }
    given.passed += 1;
    Ok(())
}

// Adds what operands say, of which the first is the first of its statement.
fn add_operands(keyword: Keyword, given: &mut Given, operands: &Operands) -> Result<(), Cause>
    requires { given.old.passed + length operands.now < 2 ^ 32 }
    ensures { after result given.new ≡ with_operands keyword true given.old operands.now }
{
    let mut first = true;
    let mut left = operands.again();
    while let Some((operand, rest)) = left.next() {
        add_operand(keyword, first, given, &operand)?;
        first = false;
        left = rest;
    }
    Ok(())
}

/// What the operands of a statement say, by the rows of its table.
pub(crate) fn read_operands(
    keyword: Keyword,
    taken: Taken,
    operands: &Operands,
) -> Result<Given, Cause>
    requires { length operands.now ≤ 16777216 }
    ensures { result ≡ read_operands keyword taken operands.now }
{
    let mut given = Given {
        slots: [None; KEYS],
        taken,
        passed: 0,
    };
    add_operands(keyword, &mut given, operands)?;
    Ok(given)
}
