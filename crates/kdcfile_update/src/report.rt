//! The report of an update.
ghost use Rattle.std.specs.Prelude.{◌≡◌, true, false, IfOk};
ghost use Rattle.kdcfile_update.specs.Report.{dropped_line, report_by, update_line};
ghost use Rattle.kdcs_types.specs.Tables.{TableRows};
ghost use Rattle.kd_update.specs.Carrying.{carried, dropped};

use kd_update::Dropped;
use application_types::generation::Generation;
use kd_base::{Bytes, OutOfMemory};
use kdcs_types::{Act, Acts};
use std::alloc::{AllocError, Global};

/// The last line of a report on tables that were carried.
const READY: &[u8] = b"KDCFILE READY\n";

/// The only line where nothing was to be done.
const UP_TO_DATE: &[u8] = b"KDCFILE UP TO DATE\n";

/// The line of APPLINAME.
fn update_line(alloc: Global, name: &[u8]) -> Result<Bytes, OutOfMemory>
    ensures { IfOk result (λ line. line ≡ update_line name.now) }
{
    let mut line = Bytes::from_slice(alloc, b"UPDATE ")?;
    line.append(name)?;
    line.push(b'\n')?;
    Ok(line)
}

/// How many rows of each kind went.
fn dropped_line(alloc: Global, dropped: Dropped) -> Result<Bytes, AllocError>
    ensures { IfOk result (λ line. line ≡ dropped_line dropped) }
{
    let Dropped {
        gssbs,
        tlss,
        ulss,
        services,
        jobs,
        shown,
    } = dropped;
    let line = format!(in alloc;
        "DROPPED TLS {tlss} ULS {ulss} SERVICES {services} JOBS {jobs} SHOWN {shown} GSSBS {gssbs}\n"
    )?;
    Ok(Bytes::from_vec(line.into_bytes()))
}

/// The lines where the tables were carried, each as one act.
pub(crate) fn carried_report(
    alloc: Global,
    generation: &Generation,
    gone: Dropped,
) -> Result<Acts, OutOfMemory>
    ensures { IfOk result (λ acts. (old : TableRows) → gone ≡ dropped old (carried generation.now old) → acts ≡ report_by false generation.now old) }
{
    let name = update_line(alloc, generation.max().appliname.as_slice())?;
    let gone = dropped_line(alloc, gone)?;
    let ready = Bytes::from_slice(alloc, READY)?;
    let mut acts = Acts::new(alloc);
    acts.push(Act::Emit(name))?;
    acts.push(Act::Emit(gone))?;
    acts.push(Act::Emit(ready))?;
    Ok(acts)
}

/// The line where nothing was to be done, as one act.
pub(crate) fn up_to_date_report(alloc: Global, generation: &Generation) -> Result<Acts, OutOfMemory>
    ensures { IfOk result (λ acts. (old : TableRows) → acts ≡ report_by true generation.now old) }
{
    let _ = generation; // the report is the same for all
    let mut acts = Acts::new(alloc);
    acts.push(Act::Emit(Bytes::from_slice(alloc, UP_TO_DATE)?))?;
    Ok(acts)
}
