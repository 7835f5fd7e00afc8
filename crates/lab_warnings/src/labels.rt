//! Where the labels of a units text stand.

use kd_base::{Bytes, OutOfMemory, ProgName};
use lab_check::lab_findings::{LineKind, kind_of};
use std::alloc::Global;
use texts::next_line;

/// A label of a unit, with the number of its line, from 1.
pub struct Label {
    pub unit: ProgName,
    pub name: Bytes,
    pub line: u32,
}

impl Drop for Label {
    fn drop(self) {
        let Label { unit, name, line } = self;
        let _ = unit;
        let _ = name;
        let _ = line;
    }
}

/// The labels of a units text, in the order of their lines. What stands before the first UNIT line is in no unit.
pub fn labels_of(alloc: Global, text: &[u8]) -> Result<Vec<Label>, OutOfMemory> {
    let mut labels = Vec::new(alloc);
    let mut unit = None;
    let mut number: u32 = 1;
    let mut rest = text;
    while !rest.is_empty() {
        let (line, after) = next_line(rest);
        match (kind_of(line), unit) {
            (LineKind::Unit(name), _) => unit = ProgName::from_bytes(name),
            (LineKind::Label(name), Some(unit)) => {
                labels.push(label_at(alloc, unit, name, number)?)?;
            }
            _ => {}
        }
        number = number.saturating_add(1);
        rest = after;
    }
    Ok(labels)
}

fn label_at(alloc: Global, unit: ProgName, name: &[u8], line: u32) -> Result<Label, OutOfMemory> {
    let name = Bytes::from_slice(alloc, name)?;
    Ok(Label { unit, name, line })
}
