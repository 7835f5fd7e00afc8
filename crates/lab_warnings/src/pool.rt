//! Whether what the units can write has room in the page pool.
ghost use Rattle.kd_records.specs.Charge.{IsBlockSize};

use crate::said::count_of;
use crate::targets::Names;
use crate::warned::Warnings;
use crate::warning::Warning;
use application_types::generation::Generation;
use application_types::kdcdef_types::{Said, Statement};
use application_types::unit_types::{Action, HeaderName, Operand, Unit};
use application_types::units::Units;
use kd_base::OutOfMemory;
use kd_records::charge;
use lab_check::lab_findings::TextName;
use std::alloc::Global;
use std::collections::BTreeSet;

/// Bytes of a service's row beside its KB: names, lengths and what may be empty.
const SERVICE_BYTES: u64 = 46;

/// What the units write into areas of a kind.
struct Written {
    /// The literals that name areas.
    names: Names,
    /// Whether some name is no literal.
    is_open: bool,
    /// The greatest number of bytes that are written.
    longest: u64,
}

impl Drop for Written {
    fn drop(self) {
        let Written {
            names,
            is_open,
            longest,
        } = self;
        let _ = names;
        let _ = is_open;
        let _ = longest;
    }
}

/// What the units write.
struct Areas {
    gssbs: Written,
    uls: Written,
    tls: Written,
}

impl Drop for Areas {
    fn drop(self) {
        let Areas { gssbs, uls, tls } = self;
        drop(gssbs);
        drop(uls);
        drop(tls);
    }
}

// The greatest number of bytes that an operand can have.
fn longest_of(unit: &Unit, operand: &Operand) -> u64 {
    match operand {
        Operand::Literal(bytes) | Operand::Digits(bytes) => bytes.len() as u64,
        Operand::Field(name) | Operand::Trim(name) => match unit.field(name.as_slice()) {
            Some(field) => u64::from(field.length),
            None => 0,
        },
        Operand::Header(HeaderName::Crccc) => 3,
        Operand::Header(HeaderName::Rlm) => 5,
        Operand::Header(_) => 8,
    }
}

impl Written {
    fn nothing(alloc: Global) -> Written {
        Written {
            names: BTreeSet::new(alloc),
            is_open: false,
            longest: 0,
        }
    }

    fn add(&mut self, unit: &Unit, name: &Operand, content: &Operand) -> Result<(), OutOfMemory> {
        match name {
            Operand::Literal(bytes) => {
                self.names.insert(bytes.clone()?)?;
            }
            _ => self.is_open = true,
        }
        self.longest = self.longest.max(longest_of(unit, content));
        Ok(())
    }

    // How many areas of the kind there can be, of which there are at most so many.
    fn count(&self, most: u64) -> u64 {
        if self.is_open {
            most
        } else {
            most.min(self.names.len() as u64)
        }
    }
}

impl Areas {
    // Adds what a statement of the unit writes.
    fn add(&mut self, unit: &Unit, action: &Action) -> Result<(), OutOfMemory> {
        match action {
            Action::SputGb(name, content) => self.gssbs.add(unit, name, content),
            Action::SputUs(name, content) => self.uls.add(unit, name, content),
            Action::Ptda(name, content) => self.tls.add(unit, name, content),
            _ => Ok(()),
        }
    }

    fn none(alloc: Global) -> Areas {
        Areas {
            gssbs: Written::nothing(alloc),
            uls: Written::nothing(alloc),
            tls: Written::nothing(alloc),
        }
    }

    // Adds what the units write.
    fn add_all(&mut self, units: &Units) -> Result<(), OutOfMemory> {
        for unit in units.all() {
            for statement in unit.statements() {
                self.add(unit, &statement.action)?;
            }
        }
        Ok(())
    }
}

// The pages of so many rows of so many bytes each.
fn pages(count: u64, bytes: u64, blksize: u32) -> u64
    requires { IsBlockSize blksize }
{
    charge(bytes, blksize).saturating_mul(count)
}

// The pages that areas, and services of users with RESTART=YES, can take together.
fn pages_of(areas: &Areas, generation: &Generation, said: &[Statement]) -> u64 {
    let max = generation.max();
    let counts = generation.counts();
    let size = max.blksize;
    let uls = areas
        .uls
        .count(count_of(said, |s| matches!(s, Said::Uls(_))));
    let tls = areas
        .tls
        .count(count_of(said, |s| matches!(s, Said::Tls(_))));
    let services = count_of(said, |s| matches!(s, Said::User(_, entry) if entry.restart));
    let uls_rows = uls.saturating_mul(u64::from(counts.users));
    let tls_rows = tls.saturating_mul(u64::from(counts.lterms));
    pages(
        areas.gssbs.count(u64::from(max.gssbs)),
        areas.gssbs.longest,
        size,
    )
    .saturating_add(pages(uls_rows, areas.uls.longest, size))
    .saturating_add(pages(tls_rows, areas.tls.longest, size))
    .saturating_add(pages(services, SERVICE_BYTES + u64::from(max.kb), size))
}

// The pages that what the units can write takes.
fn pages_needed(
    alloc: Global,
    generation: &Generation,
    units: &Units,
    said: &[Statement],
) -> Result<u64, OutOfMemory> {
    let mut areas = Areas::none(alloc);
    areas.add_all(units)?;
    Ok(pages_of(&areas, generation, said))
}

// The line of the statement that gives PGPOOL, else of the last one.
fn pool_line(said: &[Statement]) -> u32 {
    let mut line = 0;
    for statement in said {
        line = statement.line;
        if let Said::Max(max) = &statement.said {
            if max.pgpool.is_some() {
                return line;
            }
        }
    }
    line
}

/// Warns of a page pool that what the units can write does not fit.
pub(crate) fn pool_warning(
    alloc: Global,
    generation: &Generation,
    units: &Units,
    said: &[Statement],
    warned: &mut Warnings,
) -> Result<(), OutOfMemory> {
    let needed = pages_needed(alloc, generation, units, said)?;
    let pool = generation.max().pgpool;
    if needed <= u64::from(pool) {
        return Ok(());
    }
    let numbers = format!(in alloc; "PGPOOL={pool} {needed}")?;
    let line = pool_line(said);
    let text = TextName::Definition;
    warned.warn(
        alloc,
        text,
        line,
        Warning::PoolMayBeSpent,
        numbers.as_bytes(),
        b"",
    )
}
