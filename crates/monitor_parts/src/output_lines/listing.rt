//! All lines of tables, one after the other.
ghost use Rattle.std.specs.Prelude.{◌≡◌, ◌++◌, flat_map, OnOk, IfOk};
ghost use Rattle.abstract_monitor.specs.Listing.{gssb_line, block_line, service_lines, job_line, shown_line, listing};

use crate::output_lines::row_lines::{
    put_block_line, put_gssb_line, put_job_line, put_number_line, put_service, put_shown_line,
};
use kd_base::{Bytes, Name, OutOfMemory};
use kdcs_types::{Job, JobValue, Service, Tables};
use std::alloc::Global;

fn put_gssbs(alloc: Global, rows: &[(Name, Bytes)], text: &mut Bytes) -> Result<(), OutOfMemory>
    ensures { OnOk result (text.new ≡ text.old ++ flat_map gssb_line rows.now) }
{
    for row in rows {
        put_gssb_line(alloc, row.0, row.1.as_slice(), text)?;
    }
    Ok(())
}

// Blocks of TLS or ULS, as the first word says.
fn put_blocks(
    alloc: Global,
    kind: &[u8],
    rows: &[(Name, Name, Bytes)],
    text: &mut Bytes,
) -> Result<(), OutOfMemory>
    ensures { OnOk result (text.new ≡ text.old ++ flat_map (block_line kind.now) rows.now) }
{
    for row in rows {
        put_block_line(alloc, kind, row.0, row.1, row.2.as_slice(), text)?;
    }
    Ok(())
}

fn put_services(alloc: Global, rows: &[Service], text: &mut Bytes) -> Result<(), OutOfMemory>
    ensures { OnOk result (text.new ≡ text.old ++ flat_map service_lines rows.now) }
{
    for row in rows {
        put_service(alloc, row, text)?;
    }
    Ok(())
}

fn put_jobs(alloc: Global, rows: &[Job], text: &mut Bytes) -> Result<(), OutOfMemory>
    ensures { OnOk result (text.new ≡ text.old ++ flat_map job_line rows.now) }
{
    for row in rows {
        put_job_line(alloc, row.number, &row.value, text)?;
    }
    Ok(())
}

fn put_shown(alloc: Global, rows: &[(Name, JobValue)], text: &mut Bytes) -> Result<(), OutOfMemory>
    ensures { OnOk result (text.new ≡ text.old ++ flat_map shown_line rows.now) }
{
    for row in rows {
        put_shown_line(alloc, row.0, &row.1, text)?;
    }
    Ok(())
}

fn put_tables(alloc: Global, tables: &Tables, text: &mut Bytes) -> Result<(), OutOfMemory>
    ensures { OnOk result (text.new ≡ text.old ++ listing tables.now) }
{
    put_number_line(alloc, b"CLOCK", tables.clock(), text)?;
    put_number_line(alloc, b"NEXT", tables.next_job(), text)?;
    put_gssbs(alloc, tables.gssbs(), text)?;
    put_blocks(alloc, b"TLS", tables.tlss(), text)?;
    put_blocks(alloc, b"ULS", tables.ulss(), text)?;
    put_services(alloc, tables.services(), text)?;
    put_jobs(alloc, tables.jobs(), text)?;
    put_shown(alloc, tables.shown(), text)
}

/// The lines of tables, as `show` prints them: the clock, the next job number, and the rows in the order of kinds and
/// keys, a service with its KB and its LSSBs after it. Contents and messages are escaped; each line ends with LF.
pub fn table_lines(alloc: Global, tables: &Tables) -> Result<Bytes, OutOfMemory>
    ensures { IfOk result (λ text. text ≡ listing tables.now) }
{
    let mut text = Bytes::new(alloc);
    put_tables(alloc, tables, &mut text)?;
    Ok(text)
}
