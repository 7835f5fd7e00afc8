//! A statement of a definition as its keyword and its operands, which commas part outside quotes and parentheses. It
//! need not be one that is accepted.

use crate::lab_findings::{first_word, without_blanks};
use kd_base::{Bytes, OutOfMemory};
use std::alloc::Global;
use texts::len_before;

/// Where a byte stands.
#[derive(Clone, Copy)]
struct Inside {
    quotes: bool,
    list: bool,
}

/// These pieces one behind another.
pub(crate) fn joined(alloc: Global, pieces: &[&[u8]]) -> Result<Bytes, OutOfMemory> {
    let mut all = Bytes::new(alloc);
    for piece in pieces {
        all.append(piece)?;
    }
    Ok(all)
}

// Where what follows the byte stands.
fn behind(inside: Inside, byte: u8) -> Inside {
    match byte {
        b'\'' => Inside {
            quotes: !inside.quotes,
            list: inside.list,
        },
        b'(' if !inside.quotes => Inside {
            quotes: false,
            list: true,
        },
        b')' if !inside.quotes => Inside {
            quotes: false,
            list: false,
        },
        _ => inside,
    }
}

// How many bytes are before the first comma that parts operands.
fn len_before_comma(text: &[u8]) -> usize {
    let mut inside = Inside {
        quotes: false,
        list: false,
    };
    for (i, byte) in text.iter().enumerate() {
        if *byte == b',' && !inside.quotes && !inside.list {
            return i;
        }
        inside = behind(inside, *byte);
    }
    text.len()
}

/// Operands, with the blanks between them.
#[derive(Clone, Copy)]
struct Operands<'a> {
    /// Those that are left, if there are some.
    rest: Option<&'a [u8]>,
}

impl<'a> Operands<'a> {
    // Takes the first operand.
    fn next(&mut self) -> Option<&'a [u8]> {
        let text = self.rest?;
        let n = len_before_comma(text);
        if n >= text.len() {
            self.rest = None;
            return Some(text);
        }
        let (operand, behind) = text.split_at(n);
        self.rest = Some(&behind[1..]);
        Some(operand)
    }
}

// The key of an operand that has one, and what is behind it.
fn split_key(operand: &[u8]) -> Option<(&[u8], &[u8])> {
    let n = len_before(b'=', operand);
    if n >= operand.len() {
        return None;
    }
    let (front, rest) = operand.split_at(n);
    Some((without_blanks(front), without_blanks(&rest[1..])))
}

/// The key of an operand, if it has one.
pub(crate) fn key_of(operand: &[u8]) -> Option<&[u8]> {
    let (key, _) = split_key(operand)?;
    Some(key)
}

// What is behind the key of an operand that has this key.
fn behind_key<'a>(operand: &'a [u8], key: &str) -> Option<&'a [u8]> {
    let (found, value) = split_key(operand)?;
    if found.eq_ignore_ascii_case(key.as_bytes()) {
        Some(value)
    } else {
        None
    }
}

/// Which operands of a statement, by their places from 0.
#[derive(Clone, Copy)]
pub(crate) enum Which {
    AllBut(usize),
    UpTo(usize),
}

impl Which {
    fn has(self, place: usize) -> bool {
        match self {
            Which::AllBut(left_out) => place != left_out,
            Which::UpTo(last) => place <= last,
        }
    }
}

/// A statement: its keyword and its operands, of which there is one at least.
#[derive(Clone, Copy)]
pub(crate) struct Parts<'a> {
    keyword: &'a [u8],
    operands: &'a [u8],
}

impl<'a> Parts<'a> {
    pub fn of(text: &'a [u8]) -> Parts<'a> {
        let (keyword, operands) = first_word(without_blanks(text));
        Parts { keyword, operands }
    }

    pub fn keyword(&self) -> &'a [u8] {
        self.keyword
    }

    pub fn has_keyword(&self, keyword: &str) -> bool {
        self.keyword.eq_ignore_ascii_case(keyword.as_bytes())
    }

    fn operands(&self) -> Operands<'a> {
        Operands {
            rest: Some(self.operands),
        }
    }

    /// How many operands there are.
    pub fn len(&self) -> usize {
        let mut left = self.operands();
        let mut count: usize = 0;
        // Each but the last has a comma behind it.
        for _ in 0..=self.operands.len() {
            if left.next().is_none() {
                break;
            }
            count = count.saturating_add(1);
        }
        count
    }

    // Adds these operands to the keyword.
    fn add_to(&self, which: Which, text: &mut Bytes) -> Result<(), OutOfMemory> {
        let mut left = self.operands();
        let mut mark: &[u8] = b" ";
        for place in 0..=self.operands.len() {
            let Some(operand) = left.next() else {
                break;
            };
            if which.has(place) {
                text.append(mark)?;
                text.append(operand)?;
                mark = b",";
            }
        }
        Ok(())
    }

    /// The statement with these operands alone.
    pub fn with(&self, alloc: Global, which: Which) -> Result<Bytes, OutOfMemory> {
        let mut text = Bytes::from_slice(alloc, self.keyword)?;
        self.add_to(which, &mut text)?;
        Ok(text)
    }

    /// The operand at this place, from 0, without the blanks around it; empty where there is none.
    pub fn operand(&self, place: usize) -> &'a [u8] {
        let mut left = self.operands();
        for _ in 0..place {
            left.next();
        }
        without_blanks(left.next().unwrap_or(b""))
    }

    /// The statement of its first operand, and these bytes behind it.
    pub fn first_with(&self, alloc: Global, behind: &[u8]) -> Result<Bytes, OutOfMemory> {
        let first = self.operands().next().unwrap_or(b"");
        joined(alloc, &[self.keyword, b" ", first, behind])
    }

    /// The value of the operand with this key, without the blanks around it.
    pub fn value(&self, key: &str) -> Option<&'a [u8]> {
        let mut left = self.operands();
        for _ in 0..=self.operands.len() {
            let value = behind_key(left.next()?, key);
            if value.is_some() {
                return value;
            }
        }
        None
    }

    /// The place of the operand with this key, from 0.
    pub fn place(&self, key: &str) -> Option<usize> {
        let mut left = self.operands();
        for place in 0..=self.operands.len() {
            if behind_key(left.next()?, key).is_some() {
                return Some(place);
            }
        }
        None
    }
}
