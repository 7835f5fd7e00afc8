//! Records as the bytes that are after the root of an image.
ghost use Rattle.std.specs.Prelude.{◌≡◌, ◌+◌, ◌<◌, ◌^◌, ◌++◌, length, sum_by, All, IfOk, OnOk};
ghost use Rattle.std.specs.List.{flat_map};
ghost use Rattle.kd_records.specs.Contents.{Record};
ghost use Rattle.kd_records.specs.Charged.{record_length};
ghost use Rattle.device_tests.specs.File.{spelled_record};

use kd_base::{Bytes, OutOfMemory};
use kd_records::RecordKey;
use std::alloc::Global;

/// The kind, the 24 bytes of the key, and the value as a list.
fn put_record(out: &mut Bytes, key: &RecordKey, value: &Bytes) -> Result<(), OutOfMemory>
    requires { length value.now < 2 ^ 32 }
    ensures bytes { OnOk result (out.new ≡ out.old ++ spelled_record (key.now, value.now)) }
    ensures length { OnOk result (length out.new ≡ length out.old + record_length (key.now, value.now)) }
{
    out.push(key.kind)?;
    out.append(&key.bytes)?;
    out.put_list(value.as_slice())
}

/// All records, one after the other.
pub(crate) fn records_bytes(
    alloc: Global,
    records: &[(RecordKey, Bytes)],
) -> Result<Bytes, OutOfMemory>
    requires { All (λ (r : Record). length r.1 < 2 ^ 32) records.now }
    ensures bytes { IfOk result (λ b. b ≡ flat_map spelled_record records.now) }
    ensures length { IfOk result (λ b. length b ≡ sum_by record_length records.now) }
{
    let mut out = Bytes::new(alloc);
    for record in records {
        put_record(&mut out, &record.0, &record.1)?;
    }
    Ok(out)
}
