//! A unit whose END has not come yet.
ghost use Rattle.std.specs.Prelude.{◌≡◌, IfOk, OnOk};
ghost use Rattle.unit_read.specs.{Names.{AreFieldNames, AreLabelNames}, Units.{begun, with_field, with_label, with_statement, with_piece}, Open.{unit_so_far, HasItsNames}, Answers.{Gives, after}};

use crate::fault::UnitFault;
use crate::names::{Names, add_name, holds, no_names};
use crate::piece::Piece;
use crate::push::push;
use crate::said::Said;
use crate::used::is_defined;
use application_types::unit_types::{Field, Unit, UnitStatement};
use kd_base::{Bytes, OutOfMemory, ProgName};
use std::alloc::Global;

/// The greatest number of statements in a unit.
const MAX_STATEMENTS: usize = 10_000;

/// A unit so far, with sets of the names of its fields and its labels.
pub(crate) struct OpenUnit {
    name: ProgName,
    line: u32,
    fields: Vec<Field>,
    labels: Vec<(Bytes, u32)>,
    statements: Vec<UnitStatement>,
    field_names: Names,
    label_names: Names,
}

impl Drop for OpenUnit {
    fn drop(self) {
        let OpenUnit {
            name,
            line,
            fields,
            labels,
            statements,
            field_names,
            label_names,
        } = self;
        let _ = name;
        let _ = line;
        let _ = fields;
        let _ = labels;
        let _ = statements;
        let _ = field_names;
        let _ = label_names;
    }
}

impl OpenUnit {
    pub(crate) fn new(alloc: Global, name: ProgName, line: u32) -> OpenUnit
        ensures unit { unit_so_far result ≡ begun name line }
        ensures kept { HasItsNames result }
    {
        OpenUnit {
            name,
            line,
            fields: Vec::new(alloc),
            labels: Vec::new(alloc),
            statements: Vec::new(alloc),
            field_names: no_names(alloc),
            label_names: no_names(alloc),
        }
    }

    pub(crate) fn name(&self) -> &ProgName
        ensures { result.now ≡ self.now.name }
    {
        &self.name
    }

    fn with_field(&mut self, field: Field) -> Result<(), UnitFault>
        requires { HasItsNames self.old }
        ensures unit { Gives (after result (unit_so_far self.new)) (with_field field (unit_so_far self.old)) }
        ensures kept { OnOk result (HasItsNames self.new) }
    {
        if !self.labels.is_empty() || !self.statements.is_empty() {
            return Err(UnitFault::BadStatement(field.line));
        }
        if holds(&self.field_names, &field.name) {
            return Err(UnitFault::BadField(field.line));
        }
        add_name(&mut self.field_names, &field.name)?;
        push(&mut self.fields, field)?;
        Ok(())
    }

    fn with_label(&mut self, line: u32, label: Bytes) -> Result<(), UnitFault>
        requires { HasItsNames self.old }
        ensures unit { Gives (after result (unit_so_far self.new)) (with_label line label (unit_so_far self.old)) }
        ensures kept { OnOk result (HasItsNames self.new) }
    {
        if holds(&self.label_names, &label) {
            return Err(UnitFault::LabelTwice(line));
        }
        add_name(&mut self.label_names, &label)?;
        let place = self.statements.len() as u32 + 1;
        push(&mut self.labels, (label, place))?;
        Ok(())
    }

    fn with_statement(&mut self, line: u32, said: Said) -> Result<(), UnitFault>
        requires { HasItsNames self.old }
        ensures unit { Gives (after result (unit_so_far self.new)) (with_statement line said (unit_so_far self.old)) }
        ensures kept { OnOk result (HasItsNames self.new) }
    {
        if !is_defined(said.action(), &self.field_names) {
            return Err(UnitFault::BadField(line));
        }
        if self.statements.len() >= MAX_STATEMENTS {
            return Err(UnitFault::TooLong(line));
        }
        said.add_to(&mut self.statements, line)?;
        Ok(())
    }

    /// One more piece, which is not the END of the unit.
    pub(crate) fn with_piece(&mut self, line: u32, piece: Piece) -> Result<(), UnitFault>
        requires { HasItsNames self.old }
        ensures unit { Gives (after result (unit_so_far self.new)) (with_piece line piece (unit_so_far self.old)) }
        ensures kept { OnOk result (HasItsNames self.new) }
    {
        match piece {
            Piece::Unit(_) | Piece::End => Err(UnitFault::NoEnd(line)),
            Piece::Field(name, spab, offset, length) => {
                let field = Field {
                    name,
                    line,
                    spab,
                    offset,
                    length,
                };
                self.with_field(field)
            }
            Piece::Label(label) => self.with_label(line, label),
            Piece::Statement(said) => self.with_statement(line, said),
        }
    }

    /// The unit, which ends here.
    pub(crate) fn ended(self, alloc: Global) -> Result<Unit, OutOfMemory>
        requires { HasItsNames self }
        ensures { IfOk result (λ u. u ≡ unit_so_far self) }
    {
        let OpenUnit {
            name,
            line,
            fields,
            labels,
            statements,
            field_names,
            label_names,
        } = self;
        let _ = field_names;
        let _ = label_names;
        Unit::new(alloc, name, line, fields, labels, statements)
    }
}
