//! Tables as contents, and changes as patches.
ghost use Rattle.std.specs.Prelude.{◌≡◌, ◌++◌, ◌∷◌, [], ◌<◌, ◌^◌, List, ℕ, length, map, All, IfOk, OnOk};
ghost use Rattle.kdcs_types.specs.{declared.service.Service.{Service as ServiceIs}, declared.service.Job.{Job as JobIs}, declared.service.JobValue.{JobValue as JobValueIs}};
ghost use Rattle.kdcs_types.specs.Tables.{gssb_row, tls_row, uls_row, service_row, job_row, shown_row};
ghost use Rattle.record_codec.specs.{Values.{service_bytes, job_bytes, record_of, record_change, HasShortChange}, Records.{content_of_tables, patch_of, HasShortValues}};

use crate::keys::record_key;
use crate::values::{job_value, row_value, service_value};
use kd_base::{Bytes, Name, OutOfMemory};
use kd_records::{Content, Patch, PatchItems, Records};
use kdcs_types::{Change, Changes, Job, JobValue, Key, Row, Service, Tables};
use std::alloc::Global;

fn put_gssbs(rows: &[(Name, Bytes)], records: &mut Records) -> Result<(), OutOfMemory>
    ensures { OnOk result (records.new ≡ records.old ++ map record_of (map gssb_row rows.now)) }
{
    for row in rows {
        records.push((record_key(&Key::Gssb(row.0)), row.1.clone()?))?;
    }
    Ok(())
}

fn put_tlss(rows: &[(Name, Name, Bytes)], records: &mut Records) -> Result<(), OutOfMemory>
    ensures { OnOk result (records.new ≡ records.old ++ map record_of (map tls_row rows.now)) }
{
    for row in rows {
        records.push((record_key(&Key::Tls(row.0, row.1)), row.2.clone()?))?;
    }
    Ok(())
}

fn put_ulss(rows: &[(Name, Name, Bytes)], records: &mut Records) -> Result<(), OutOfMemory>
    ensures { OnOk result (records.new ≡ records.old ++ map record_of (map uls_row rows.now)) }
{
    for row in rows {
        records.push((record_key(&Key::Uls(row.0, row.1)), row.2.clone()?))?;
    }
    Ok(())
}

fn put_services(alloc: Global, rows: &[Service], records: &mut Records) -> Result<(), OutOfMemory>
    requires { All (λ (s : ServiceIs). length (service_bytes s) < 2 ^ 32) rows.now }
    ensures { OnOk result (records.new ≡ records.old ++ map record_of (map service_row rows.now)) }
{
    for row in rows {
        records.push((
            record_key(&Key::Service(row.id)),
            service_value(alloc, row)?,
        ))?;
    }
    Ok(())
}

fn put_job(alloc: Global, row: &Job, records: &mut Records) -> Result<(), OutOfMemory>
    requires { length (job_bytes row.now.value) < 2 ^ 32 }
    ensures { OnOk result (records.new ≡ records.old ++ record_of (job_row row.now) ∷ []) }
{
    let value = job_value(alloc, &row.value)?;
    records.push((record_key(&Key::Job(row.number)), value))
}

fn put_jobs(alloc: Global, rows: &[Job], records: &mut Records) -> Result<(), OutOfMemory>
    requires { All (λ (j : JobIs). length (job_bytes j.value) < 2 ^ 32) rows.now }
    ensures { OnOk result (records.new ≡ records.old ++ map record_of (map job_row rows.now)) }
{
    for row in rows {
        put_job(alloc, row, records)?;
    }
    Ok(())
}

fn put_shown(
    alloc: Global,
    rows: &[(Name, JobValue)],
    records: &mut Records,
) -> Result<(), OutOfMemory>
    requires { All (λ (r : List ℕ × JobValueIs). length (job_bytes r.1) < 2 ^ 32) rows.now }
    ensures { OnOk result (records.new ≡ records.old ++ map record_of (map shown_row rows.now)) }
{
    for row in rows {
        records.push((record_key(&Key::Shown(row.0)), job_value(alloc, &row.1)?))?;
    }
    Ok(())
}

/// The records of tables, in ascending order of their keys.
pub fn records(alloc: Global, tables: &Tables) -> Result<Content, OutOfMemory>
    requires { HasShortValues tables.now }
    ensures { IfOk result (λ content. content ≡ content_of_tables tables.now) }
{
    let mut items = Records::new(alloc);
    put_gssbs(tables.gssbs(), &mut items)?;
    put_tlss(tables.tlss(), &mut items)?;
    put_ulss(tables.ulss(), &mut items)?;
    put_services(alloc, tables.services(), &mut items)?;
    put_jobs(alloc, tables.jobs(), &mut items)?;
    put_shown(alloc, tables.shown(), &mut items)?;
    Ok(Content {
        clock: tables.clock(),
        next_job: tables.next_job(),
        items,
    })
}

fn put_change(alloc: Global, change: &Change, items: &mut PatchItems) -> Result<(), OutOfMemory>
    requires { HasShortChange change.now }
    ensures { OnOk result (items.new ≡ items.old ++ record_change change.now ∷ []) }
{
    match change {
        Change::Set(row) => items.push((record_key(&row.key()), Some(row_value(alloc, row)?))),
        Change::Remove(key) => items.push((record_key(key), None)),
    }
}

/// The patch that makes the records of changed tables of those of the tables before.
pub fn difference(alloc: Global, changes: &Changes) -> Result<Patch, OutOfMemory>
    requires { All HasShortChange changes.now.items }
    ensures { IfOk result (λ patch. patch ≡ patch_of changes.now) }
{
    let mut items = PatchItems::new(alloc);
    for change in changes.items.as_slice() {
        put_change(alloc, change, &mut items)?;
    }
    Ok(Patch {
        clock: changes.clock,
        next_job: changes.next_job,
        items,
    })
}
