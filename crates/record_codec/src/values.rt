//! The values of rows as bytes.
ghost use Rattle.std.specs.Prelude.{◌≡◌, ◌<◌, ◌^◌, ◌++◌, List, ℕ, length, flat_map, All, OnOk, IfOk};
ghost use Rattle.kd_base.specs.{Field.{list}, Text.{padded}};
ghost use Rattle.kdcs_types.specs.Tables.{row_key};
ghost use Rattle.record_codec.specs.Values.{counted, flag, last_bytes, lterm_bytes, lssb_bytes, service_bytes, target_bytes, times_bytes, job_bytes, value_bytes, HasShortValue};

use kd_base::{Bytes, Name, OutOfMemory};
use kdcs_types::{JobValue, Row, Service, Target};
use std::alloc::Global;

/// So many bytes a job's value has before its message.
const JOB_HEAD: usize = 37;

fn put_target(to: &Target, w: &mut Bytes) -> Result<(), OutOfMemory>
    ensures { OnOk result (w.new ≡ w.old ++ target_bytes to.now) }
{
    match to {
        Target::Tac(tac) => {
            w.push(b'T')?;
            w.put_name(*tac)
        }
        Target::Lterm(lterm) => {
            w.push(b'L')?;
            w.put_name(*lterm)
        }
    }
}

// How often a job was delivered again, and its due in seven bytes.
fn put_times(value: &JobValue, w: &mut Bytes) -> Result<(), OutOfMemory>
    ensures { OnOk result (w.new ≡ w.old ++ times_bytes value.now) }
{
    w.push(value.redelivered)?;
    w.append(&value.due.to_be_bytes()[1..])
}

/// The value of a job's record. Its due is below 2^56.
pub(crate) fn job_value(alloc: Global, value: &JobValue) -> Result<Bytes, OutOfMemory>
    requires { length (job_bytes value.now) < 2 ^ 32 }
    ensures { IfOk result (λ bytes. bytes ≡ job_bytes value.now) }
{
    let length = value.message.len().saturating_add(JOB_HEAD);
    let mut w = Bytes::from_vec(Vec::with_capacity(alloc, length)?);
    put_target(&value.to, &mut w)?;
    put_times(value, &mut w)?;
    w.put_name(value.user)?;
    w.put_name(value.lterm)?;
    w.put_list(value.message.as_slice())?;
    Ok(w)
}

fn put_flag(set: bool, w: &mut Bytes) -> Result<(), OutOfMemory>
    ensures { OnOk result (w.new ≡ w.old ++ flag set) }
{
    w.push(u8::from(set))
}

fn put_lterm(lterm: &Option<Name>, w: &mut Bytes) -> Result<(), OutOfMemory>
    ensures { OnOk result (w.new ≡ w.old ++ lterm_bytes lterm.now) }
{
    match lterm {
        Some(lterm) => w.put_name(*lterm),
        None => w.append(&[b' '; 8]),
    }
}

/// Puts 0, or 1 and a message as a list.
pub fn put_last(last: &Option<Bytes>, w: &mut Bytes) -> Result<(), OutOfMemory>
    requires { length (last_bytes last.now) < 2 ^ 32 }
    ensures { OnOk result (w.new ≡ w.old ++ last_bytes last.now) }
{
    match last {
        Some(message) => {
            w.push(1)?;
            w.put_list(message.as_slice())
        }
        None => w.push(0),
    }
}

fn put_each_part(parts: &[Bytes], w: &mut Bytes) -> Result<(), OutOfMemory>
    requires { All (λ (part : List ℕ). length part < 2 ^ 32) parts.now }
    ensures { OnOk result (w.new ≡ w.old ++ flat_map list parts.now) }
{
    for part in parts {
        w.put_list(part.as_slice())?;
    }
    Ok(())
}

#[tactic(auto, using(crate::proofs::ShortItems::few_parts, crate::proofs::ShortItems::short_parts))]
fn put_parts(parts: &[Bytes], w: &mut Bytes) -> Result<(), OutOfMemory>
    requires { length (counted list parts.now) < 2 ^ 32 }
    ensures { OnOk result (w.new ≡ w.old ++ counted list parts.now) }
{
    w.put_u32(parts.len() as u32)?;
    put_each_part(parts, w)
}

fn put_each_lssb(lssbs: &[(Name, Bytes)], w: &mut Bytes) -> Result<(), OutOfMemory>
    requires { All (λ (lssb : List ℕ × List ℕ). length lssb.1 < 2 ^ 32) lssbs.now }
    ensures { OnOk result (w.new ≡ w.old ++ flat_map lssb_bytes lssbs.now) }
{
    for lssb in lssbs {
        w.put_name(lssb.0)?;
        w.put_list(lssb.1.as_slice())?;
    }
    Ok(())
}

#[tactic(auto, using(crate::proofs::ShortItems::few_lssbs, crate::proofs::ShortItems::short_lssbs))]
fn put_lssbs(lssbs: &[(Name, Bytes)], w: &mut Bytes) -> Result<(), OutOfMemory>
    requires { length (counted lssb_bytes lssbs.now) < 2 ^ 32 }
    ensures { OnOk result (w.new ≡ w.old ++ counted lssb_bytes lssbs.now) }
{
    w.put_u32(lssbs.len() as u32)?;
    put_each_lssb(lssbs, w)
}

// Whose service it is, and where it stands.
fn put_head(s: &Service, w: &mut Bytes) -> Result<(), OutOfMemory>
    ensures { OnOk result (w.new ≡ w.old ++ padded s.now.first ++ padded s.now.next ++ flag s.now.awaits ++ padded s.now.user ++ lterm_bytes s.now.lterm) }
{
    w.put_name(s.first)?;
    w.put_name(s.next)?;
    put_flag(s.awaits, w)?;
    w.put_name(s.user)?;
    put_lterm(&s.lterm, w)
}

// What it keeps.
fn put_content(s: &Service, w: &mut Bytes) -> Result<(), OutOfMemory>
    requires { length (list s.now.kb ++ counted list s.now.handed ++ last_bytes s.now.last ++ counted lssb_bytes s.now.lssbs) < 2 ^ 32 }
    ensures { OnOk result (w.new ≡ w.old ++ list s.now.kb ++ counted list s.now.handed ++ last_bytes s.now.last ++ counted lssb_bytes s.now.lssbs) }
{
    w.put_list(s.kb.as_slice())?;
    put_parts(s.handed.as_slice(), w)?;
    put_last(&s.last, w)?;
    put_lssbs(s.lssbs.as_slice(), w)
}

/// The value of a service's record.
pub fn service_value(alloc: Global, s: &Service) -> Result<Bytes, OutOfMemory>
    requires { length (service_bytes s.now) < 2 ^ 32 }
    ensures { IfOk result (λ bytes. bytes ≡ service_bytes s.now) }
{
    let mut w = Bytes::new(alloc);
    put_head(s, &mut w)?;
    put_content(s, &mut w)?;
    Ok(w)
}

/// The value of a row's record.
pub(crate) fn row_value(alloc: Global, row: &Row) -> Result<Bytes, OutOfMemory>
    requires { HasShortValue row.now }
    ensures { IfOk result (λ bytes. bytes ≡ value_bytes row.now) }
{
    match row {
        Row::Gssb(_, content) | Row::Tls(_, _, content) | Row::Uls(_, _, content) => Ok(
            content.clone()?,
        ),
        Row::Service(_, service) => service_value(alloc, service),
        Row::Job(_, value) | Row::Shown(_, value) => job_value(alloc, value),
    }
}
