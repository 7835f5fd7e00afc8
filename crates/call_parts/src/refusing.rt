//! A call that does nothing but send the line of its refusal.
ghost use Rattle.std.specs.Prelude.{◌≡◌};
ghost use Rattle.call_parts.specs.{Beside.{SendsRefusal, line_for, status_for}, Missing.{missing_line}};

use kd_device::{Device, Half};
use refusals::{FileRefusal, Refusal, Status, refuse, refuse_file, refuse_texts};
use std::alloc::Global;

/// What is sent where the words are none of the forms.
const USAGE: &[u8] =
    b"USAGE: utm gen BASE, run BASE, show BASE, update BASE, trail BASE, audit BASE, make N\n";

/// What is sent where the words are not one BASE with its option.
const LIVE_USAGE: &[u8] = b"USAGE: live BASE [--alone]\n";

/// Why nothing is done but a line sent.
#[derive(Clone, Copy)]
pub enum Cause {
    /// The words are none of the forms.
    Words,
    /// The words are to be one BASE with its option.
    OneBase,
    Texts(Refusal),
    /// The file of this half is empty or not there, beside a copy with commits.
    Missing(Half),
    /// The file or the two files of a BASE, or a trail that does not hold.
    Files(FileRefusal),
}

/// The line of a file that is missing.
pub fn missing_line(half: Half) -> &'static str
    ensures { result.now ≡ missing_line half }
{
    match half {
        Half::First => "KDCFILE COPY A IS MISSING\n",
        Half::Second => "KDCFILE COPY B IS MISSING\n",
    }
}

/// Sends the line of its cause.
pub fn refuse_for<D: Device>(alloc: Global, device: &mut D, why: Cause) -> Status
    ensures { SendsRefusal (status_for why) (line_for why) (D.state device.old) (D.state device.new) result.code }
{
    match why {
        Cause::Words => refuse(device, USAGE, Status::USAGE),
        Cause::OneBase => refuse(device, LIVE_USAGE, Status::USAGE),
        Cause::Texts(why) => refuse_texts(alloc, device, why),
        Cause::Missing(half) => refuse(device, missing_line(half).as_bytes(), Status::FILE),
        Cause::Files(why) => refuse_file(alloc, device, &why),
    }
}
