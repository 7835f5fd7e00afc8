//! Names in acts are names, as their types say. The functions do nothing but to look at each name.
ghost use Rattle.std.specs.Prelude.{◌≡◌, ◌<◌, ◌^◌, true, IfSome, All};
ghost use Rattle.kd_base.specs.Text.{IsName};
ghost use Rattle.kdcs_types.specs.declared.key.Key.TheVariants.{Service as ServiceKey};
ghost use Rattle.record_codec.specs.{Order.{IsProperKey}, Readings.{TargetFits}};
ghost use Rattle.device_acts.specs.Named.{HasAreaName, IsNamedAct, IsNamedChange, IsNamedJob, IsNamedRow, IsNamedService};

use kd_base::{Bytes, Name};
use kdcs_types::{Act, Change, JobValue, Key, Row, Service, ServiceId, Target};

fn is_name(name: &Name)
    ensures { IsName name.now }
{
    let _bytes = name.as_slice(); // for the proof
}

fn target_is_named(to: &Target)
    ensures { TargetFits to.now }
{
    match to {
        Target::Tac(tac) => is_name(tac),
        Target::Lterm(lterm) => is_name(lterm),
    }
}

fn job_is_named(value: &JobValue)
    ensures { IsNamedJob value.now }
{
    let _redelivered = value.redelivered; // for the proof
    target_is_named(&value.to);
    is_name(&value.user);
    is_name(&value.lterm);
}

fn lterm_is_named(lterm: &Option<Name>)
    ensures { IfSome lterm.now IsName }
{
    match lterm {
        Some(name) => is_name(name),
        None => (),
    }
}

/// The names of LSSBs or of GSSBs.
fn areas_are_named(areas: &[(Name, Bytes)])
    ensures { All HasAreaName areas.now }
{
    for area in areas {
        is_name(&area.0);
    }
}

fn service_is_named(service: &Service)
    ensures { IsNamedService service.now }
{
    is_name(&service.first);
    is_name(&service.next);
    is_name(&service.user);
    lterm_is_named(&service.lterm);
    areas_are_named(service.lssbs.as_slice());
}

fn number_is_proper(number: &u64)
    ensures { number.now < 2 ^ 64 }
{
    let _number = *number; // for the proof
}

fn id_is_proper(id: &ServiceId)
    ensures { IsProperKey (ServiceKey id.now) }
{
    match id {
        ServiceId::Dialogue(user) => is_name(user),
        ServiceId::Asynchronous(number) => number_is_proper(number),
    }
}

fn key_is_proper(key: &Key)
    ensures { IsProperKey key.now }
{
    match key {
        Key::Gssb(name) => is_name(name),
        Key::Tls(block, lterm) => {
            is_name(block);
            is_name(lterm);
        }
        Key::Uls(block, user) => {
            is_name(block);
            is_name(user);
        }
        Key::Service(id) => id_is_proper(id),
        Key::Job(number) => number_is_proper(number),
        Key::Shown(lterm) => is_name(lterm),
    }
}

fn row_is_named(row: &Row)
    ensures { IsNamedRow row.now }
{
    match row {
        Row::Gssb(name, _) => is_name(name),
        Row::Tls(block, lterm, _) => {
            is_name(block);
            is_name(lterm);
        }
        Row::Uls(block, user, _) => {
            is_name(block);
            is_name(user);
        }
        Row::Service(id, service) => {
            id_is_proper(id);
            service_is_named(service);
        }
        Row::Job(number, value) => {
            number_is_proper(number);
            job_is_named(value);
        }
        Row::Shown(lterm, value) => {
            is_name(lterm);
            job_is_named(value);
        }
    }
}

fn change_is_named(change: &Change)
    ensures { IsNamedChange change.now }
{
    match change {
        Change::Set(row) => row_is_named(row),
        Change::Remove(key) => key_is_proper(key),
    }
}

fn changes_are_named(changes: &[Change])
    ensures { All IsNamedChange changes.now }
{
    for change in changes {
        change_is_named(change);
    }
}

fn act_is_named(act: &Act)
    ensures { IsNamedAct act.now }
{
    match act {
        Act::Commit(changes) => changes_are_named(changes.items.as_slice()),
        Act::Emit(_) => (),
    }
}

/// Whether the names in the rows and keys of these acts are names, which they always are. It takes no memory.
pub fn acts_are_named(acts: &[Act]) -> bool
    ensures always { result ≡ true }
    ensures named { All IsNamedAct acts.now }
{
    for act in acts {
        act_is_named(act);
    }
    true
}
