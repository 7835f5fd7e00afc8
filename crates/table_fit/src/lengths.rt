//! How many bytes the values of rows have.
ghost use Rattle.std.specs.Prelude.{◌≡◌, ◌+◌, ◌<◌, ◌^◌, length, flat_map, sum_by};
ghost use Rattle.kd_base.specs.Text.{padded};
ghost use Rattle.abstract_monitor.specs.{Bytes.{Bytes as Content}, Charges.{job_length, last_length, list_length, service_length}};
ghost use Rattle.record_codec.specs.Values.{job_bytes, lssb_bytes, lterm_bytes, service_bytes, target_bytes, value_bytes};
ghost use Rattle.table_fit.specs.Lengths.{value_length};

use kd_base::{Bytes, Name};
use kdcs_types::{JobValue, Row, Service, Target};

// A name is filled to 8 bytes.
fn name_length(name: Name) -> u64
    ensures eight { result ≡ 8 }
    ensures bytes { result ≡ length (padded name) }
{
    name.padded().len() as u64
}

// A name, or 8 spaces.
fn lterm_length(lterm: &Option<Name>) -> u64
    ensures eight { result ≡ 8 }
    ensures bytes { result ≡ length (lterm_bytes lterm.now) }
{
    match lterm {
        Some(name) => name_length(*name),
        None => 8,
    }
}

// A letter and a name.
fn target_length(to: Target) -> u64
    ensures nine { result ≡ 9 }
    ensures bytes { result ≡ length (target_bytes to) }
{
    match to {
        Target::Tac(name) | Target::Lterm(name) => 1 + name_length(name),
    }
}

fn list_length(bytes: &Bytes) -> u64
    requires { length bytes.now < 2 ^ 32 }
    ensures { result ≡ list_length bytes.now }
{
    4 + bytes.len() as u64
}

fn last_length(last: &Option<Bytes>) -> u64
    requires { last_length last.now < 2 ^ 32 }
    ensures { result ≡ last_length last.now }
{
    match last {
        Some(message) => 1 + list_length(message),
        None => 1,
    }
}

fn parts_length(parts: &[Bytes]) -> u64
    requires { sum_by list_length parts.now < 2 ^ 32 }
    ensures { result ≡ sum_by list_length parts.now }
{
    let mut total = 0;
    for part in parts {
        total += list_length(part);
    }
    total
}

fn lssbs_length(lssbs: &[(Name, Bytes)]) -> u64
    requires { sum_by (λ (l : Content × Content). 8 + list_length l.1) lssbs.now < 2 ^ 32 }
    ensures sum { result ≡ sum_by (λ (l : Content × Content). 8 + list_length l.1) lssbs.now }
    ensures bytes { result ≡ length (flat_map lssb_bytes lssbs.now) }
{
    let mut total = 0;
    for lssb in lssbs {
        total += name_length(lssb.0) + list_length(&lssb.1);
    }
    total
}

/// The number of bytes of a service's value.
pub fn service_length(service: &Service) -> u64
    requires { service_length service.now < 2 ^ 32 }
    ensures length { result ≡ service_length service.now }
    ensures bytes { result ≡ length (service_bytes service.now) }
{
    let names = name_length(service.first) + name_length(service.next) + name_length(service.user);
    let parts = 4 + parts_length(service.handed.as_slice());
    let lssbs = 4 + lssbs_length(service.lssbs.as_slice());
    names
        + 1
        + lterm_length(&service.lterm)
        + list_length(&service.kb)
        + parts
        + last_length(&service.last)
        + lssbs
}

/// The number of bytes of a job's value.
pub fn job_length(value: &JobValue) -> u64
    requires { job_length value.now < 2 ^ 32 }
    ensures length { result ≡ job_length value.now }
    ensures bytes { result ≡ length (job_bytes value.now) }
{
    let names = name_length(value.user) + name_length(value.lterm);
    target_length(value.to) + 8 + names + list_length(&value.message)
}

/// The number of bytes of the row's value.
pub fn value_length(row: &Row) -> u64
    requires { value_length row.now < 2 ^ 32 }
    ensures length { result ≡ value_length row.now }
    ensures bytes { result ≡ length (value_bytes row.now) }
{
    match row {
        Row::Gssb(_, content) | Row::Tls(_, _, content) | Row::Uls(_, _, content) => {
            content.len() as u64
        }
        Row::Service(_, service) => service_length(service),
        Row::Job(_, value) | Row::Shown(_, value) => job_length(value),
    }
}
