//! Messages to the terminal of a user.
ghost use Rattle.std.specs.Prelude.{◌≡◌, ◌++◌, OnOk};
ghost use Rattle.abstract_monitor.specs.Turns.{ended_acts, told_user, user_acts};
ghost use Rattle.service_ends.specs.Standing.{IsIndexed, SameApplication, state_of};

use crate::core_state::MonitorParts;
use kd_base::{Bytes, Name, OutOfMemory};
use kdcs_types::{Act, Acts, ServiceId};
use monitor_parts::output_lines::{ended_line, out_line};
use std::alloc::Global;

// A dialogue message to a user, where they are signed on: it is the last one of the session.
pub(crate) fn tell(
    parts: &mut MonitorParts,
    alloc: Global,
    user: &Name,
    message: Bytes,
    acts: &mut Acts,
) -> Result<(), OutOfMemory>
    requires indexed { IsIndexed parts.old }
    ensures indexed { OnOk result (IsIndexed parts.new) }
    ensures same { OnOk result (SameApplication parts.old parts.new) }
    ensures state { OnOk result (state_of parts.new ≡ told_user (state_of parts.old) user.now message) }
    ensures acts { OnOk result (acts.new ≡ acts.old ++ user_acts (state_of parts.old) user.now message) }
{
    let Some(pterm) = parts.sessions.pterm_of(*user) else {
        return Ok(());
    };
    acts.push(Act::Emit(out_line(alloc, pterm, message.as_slice())?))?;
    parts.set_last(&pterm, message);
    Ok(())
}

// SERVICE ENDED, where the user of a dialogue service is signed on.
pub(crate) fn say_ended(
    parts: &MonitorParts,
    alloc: Global,
    id: &ServiceId,
    acts: &mut Acts,
) -> Result<(), OutOfMemory>
    ensures { OnOk result (acts.new ≡ acts.old ++ ended_acts (state_of parts.now) id.now) }
{
    let ServiceId::Dialogue(user) = id else {
        return Ok(());
    };
    let Some(pterm) = parts.sessions.pterm_of(*user) else {
        return Ok(());
    };
    acts.push(Act::Emit(ended_line(alloc, pterm)?))?;
    Ok(())
}
