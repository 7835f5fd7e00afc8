//! A unit, with its look-ups by name.
ghost use Rattle.std.specs.{Prelude.{◌≡◌, ◌≤◌, length, IfOk}, Option.{option_copied}};

use crate::unit_types::action::UnitStatement;
use crate::unit_types::index::{field_index, label_index};
use kd_base::{Bytes, OutOfMemory, ProgName};
use std::alloc::Global;
use std::collections::BTreeMap;
use std::marker::Model;

/// A field: a named part of the communication area KB or of the working area SPAB.
pub struct Field {
    pub name: Bytes,
    /// The line of its FIELD statement, counted from 1.
    pub line: u32,
    /// In SPAB; else in KB.
    pub spab: bool,
    /// The place of its first byte, from 0 to 32,767.
    pub offset: u32,
    /// From 1 to 32,767 bytes.
    pub length: u32,
}

impl Drop for Field {
    fn drop(self) {
        let Field {
            name,
            line,
            spab,
            offset,
            length,
        } = self;
        let _ = name;
        let _ = line;
        let _ = spab;
        let _ = offset;
        let _ = length;
    }
}

/// A program unit. Contracts see its name, its line, its fields, its labels with the number of the statement that each
/// is before, and its statements.
pub struct Unit {
    name: ProgName,
    line: u32,
    fields: Vec<Field>,
    labels: Vec<(Bytes, u32)>,
    statements: Vec<UnitStatement>,
    // Where the first field of a name is among the fields.
    field_places: BTreeMap<Vec<u8>, usize>,
    // The number of the statement that the first label of a name is before.
    label_places: BTreeMap<Vec<u8>, u32>,
}

impl Drop for Unit {
    fn drop(self) {
        let Unit {
            name,
            line,
            fields,
            labels,
            statements,
            field_places,
            label_places,
        } = self;
        let _ = name;
        let _ = line;
        let _ = fields;
        let _ = labels;
        let _ = statements;
        let _ = field_places;
        let _ = label_places;
    }
}

impl Model for Unit {
    ghost use Rattle.application_types.specs.UnitText.{UnitText};

    ghost Value = { UnitText };

    ghost view = { λ u. record { name = u.name; line = u.line; fields = u.fields.items; labels = u.labels.items; statements = u.statements.items } };

    ghost use Rattle.std.specs.Prelude.{◌≤◌, length};
    ghost use Rattle.application_types.specs.Index.{AreFieldPlaces, AreLabelPlaces};

    ghost invariant = { λ u. AreFieldPlaces u.field_places u.fields.items × AreLabelPlaces u.label_places u.labels.items × (length u.statements.items ≤ 10000) };
}

impl Unit {
    ghost use Rattle.application_types.specs.UnitText.{field_named, label_place, statement_at};

    /// The unit of these parts. A unit has at most 10,000 statements.
    pub fn new(
        alloc: Global,
        name: ProgName,
        line: u32,
        fields: Vec<Field>,
        labels: Vec<(Bytes, u32)>,
        statements: Vec<UnitStatement>,
    ) -> Result<Unit, OutOfMemory>
        requires few { length statements.items ≤ 10000 }
        ensures { IfOk result (λ u. u ≡ record { name = name; line = line; fields = fields.items; labels = labels.items; statements = statements.items }) }
    {
        let field_places = field_index(alloc, fields.as_slice())?;
        let label_places = label_index(alloc, labels.as_slice())?;
        Ok(Unit {
            name,
            line,
            fields,
            labels,
            statements,
            field_places,
            label_places,
        })
    }

    pub fn name(&self) -> &ProgName
        ensures { result.now ≡ self.now.name }
    {
        &self.name
    }

    /// The line of its UNIT statement, counted from 1.
    pub fn line(&self) -> u32
        ensures { result ≡ self.now.line }
    {
        self.line
    }

    pub fn fields(&self) -> &[Field]
        ensures { result.now ≡ self.now.fields }
    {
        self.fields.as_slice()
    }

    pub fn statements(&self) -> &[UnitStatement]
        ensures all { result.now ≡ self.now.statements }
        ensures few { length self.now.statements ≤ 10000 }
    {
        self.statements.as_slice()
    }

    /// The first field of this name, in a time that grows only with the logarithm of the number of fields.
    pub fn field(&self, name: &[u8]) -> Option<&Field>
        ensures { option_copied result ≡ field_named self.now name.now }
    {
        match self.field_places.get(name) {
            Some(place) => self.fields.get(*place),
            None => None,
        }
    }

    /// The number, from 1, of the statement that the label of this name is before: one more than the last where it
    /// is at the end. It is found in a time that grows only with the logarithm of the number of labels.
    pub fn label(&self, name: &[u8]) -> Option<u32>
        ensures { result ≡ label_place self.now name.now }
    {
        self.label_places.get(name).copied()
    }

    /// The statement at this place, counted from 1.
    pub fn statement(&self, place: u32) -> Option<&UnitStatement>
        ensures at { option_copied result ≡ statement_at self.now place }
        ensures few { length self.now.statements ≤ 10000 }
    {
        match place.checked_sub(1) {
            Some(index) => self.statements.get(index as usize),
            None => None,
        }
    }
}
