//! The report of a generation.
ghost use Rattle.std.specs.Prelude.{◌≡◌, IfOk};
ghost use Rattle.call_parts.specs.Report.{name_line, counts_line, passed_line, report};

use application_types::generation::Generation;
use application_types::kdcdef_types::Counts;
use kd_base::{Bytes, OutOfMemory};
use kdcs_types::{Act, Acts};
use std::alloc::{AllocError, Global};

/// The last line: the KDCFILE was made, or opened.
const READY: &[u8] = b"KDCFILE READY\n";

/// The line of APPLINAME.
fn name_line(alloc: Global, name: &[u8]) -> Result<Bytes, OutOfMemory>
    ensures { IfOk result (λ line. line ≡ name_line name.now) }
{
    let mut line = Bytes::from_slice(alloc, b"GEN ")?;
    line.append(name)?;
    line.push(b'\n')?;
    Ok(line)
}

/// How many statements of each kind there are.
fn counts_line(alloc: Global, counts: Counts) -> Result<Bytes, AllocError>
    ensures { IfOk result (λ line. line ≡ counts_line counts) }
{
    let Counts {
        users,
        pterms,
        lterms,
        tacs,
        programs,
        passed_statements: _,
        passed_operands: _,
    } = counts;
    let line = format!(in alloc;
        "USERS {users} PTERMS {pterms} LTERMS {lterms} TACS {tacs} PROGRAMS {programs}\n"
    )?;
    Ok(Bytes::from_vec(line.into_bytes()))
}

/// What was read and not kept.
fn passed_line(alloc: Global, counts: Counts) -> Result<Bytes, AllocError>
    ensures { IfOk result (λ line. line ≡ passed_line counts) }
{
    let statements = counts.passed_statements;
    let operands = counts.passed_operands;
    let line = format!(in alloc; "PASSED STATEMENTS {statements} OPERANDS {operands}\n")?;
    Ok(Bytes::from_vec(line.into_bytes()))
}

/// The lines of the report of `gen`, each as one act: APPLINAME, the counts of the statements, what was passed over, and
/// that the KDCFILE is there.
pub fn report(alloc: Global, generation: &Generation) -> Result<Acts, OutOfMemory>
    ensures { IfOk result (λ acts. acts ≡ report generation.now) }
{
    let name = name_line(alloc, generation.max().appliname.as_slice())?;
    let counts = counts_line(alloc, generation.counts())?;
    let passed = passed_line(alloc, generation.counts())?;
    let ready = Bytes::from_slice(alloc, READY)?;
    let mut acts = Acts::new(alloc);
    acts.push(Act::Emit(name))?;
    acts.push(Act::Emit(counts))?;
    acts.push(Act::Emit(passed))?;
    acts.push(Act::Emit(ready))?;
    Ok(acts)
}
