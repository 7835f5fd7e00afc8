//! A call that is refused sends one line, and does nothing else.
ghost use Rattle.std.specs.{Prelude.{◌≡◌, ◌∷◌, [], List, ℕ, IsTrue, IfOk}, String.{string_bytes}};
ghost use Rattle.kd_device.specs.Device.{Rose, Frame, SameFaults, SameNames};
ghost use Rattle.device_acts.specs.Said.{Said, SaidPart};
ghost use Rattle.refusals.specs.{Statuses.{IsOneOf, status_of, status_of_file}, Lines.{fault_line, trail_line, application_line, double_line, file_line, refusal_line, other_generation_line}};
ghost use Rattle.refusals.specs.declared.error.FileRefusal.TheVariants.{OtherGeneration};

use crate::error::{FileRefusal, Refusal};
use crate::status::Status;
use application_read::ApplicationFault;
use audit_trail::TrailFault;
use device_acts::say;
use kd_device::{Device, DeviceError};
use script_read::ScriptFault;
use std::alloc::{AllocError, Global};

/// Sends the line of a refusal with this status.
pub fn refuse<D: Device>(device: &mut D, line: &[u8], status: Status) -> Status
    requires { IsOneOf (1 ∷ 2 ∷ 3 ∷ 4 ∷ 8 ∷ []) status.code }
    ensures code { IsOneOf (status.code ∷ 5 ∷ 7 ∷ []) result.code }
    ensures said { result.code ≡ status.code → IsTrue (D.state device.old).told → Said line.now (D.state device.old) (D.state device.new) }
    ensures part { IsTrue (D.state device.old).told → SaidPart line.now (D.state device.old) (D.state device.new) }
    ensures failed { result.code ≡ 5 → Rose (D.state device.old).line_faults (D.state device.new).line_faults }
    ensures fine { (result.code ≡ 5 → ⊥) → SameFaults (D.state device.old) (D.state device.new) }
    ensures frame { Frame (D.state device.old) (D.state device.new) }
    ensures names { SameNames (D.state device.old) (D.state device.new) }
{
    match say(device, line) {
        Ok(()) => status,
        Err(DeviceError::Failed) => Status::DEVICE,
        Err(DeviceError::Memory) => Status::MEMORY,
    }
}

/// The line of a script's fault.
fn script_line(alloc: Global, fault: ScriptFault) -> Result<String, AllocError>
    ensures { IfOk result (λ line. string_bytes line ≡ fault_line fault) }
{
    match fault {
        ScriptFault::BadLine(line) => format!(in alloc; "SCRIPT {line} BadLine\n"),
        ScriptFault::OutOfRange(line) => format!(in alloc; "SCRIPT {line} OutOfRange\n"),
        ScriptFault::TooLong => String::from_str(alloc, "SCRIPT 0 TooLong\n"),
        ScriptFault::Memory => Ok(String::new(alloc)),
    }
}

/// The line of a trail's fault.
fn trail_line(alloc: Global, fault: TrailFault) -> Result<String, AllocError>
    ensures { IfOk result (λ line. string_bytes line ≡ trail_line fault) }
{
    match fault {
        TrailFault::BadLine(line) => format!(in alloc; "TRAIL {line} BadLine\n"),
        TrailFault::TooLong => String::from_str(alloc, "TRAIL 0 TooLong\n"),
        TrailFault::OtherGeneration(line) => format!(in alloc; "TRAIL {line} OtherGeneration\n"),
        TrailFault::NotSuited(line) => format!(in alloc; "TRAIL {line} NotSuited\n"),
        TrailFault::Memory => Ok(String::new(alloc)),
    }
}

/// The line of a fault of the definition or the units.
fn application_line(alloc: Global, fault: ApplicationFault) -> Result<Vec<u8>, AllocError>
    ensures { IfOk result (λ line. line.items ≡ application_line fault) }
{
    let line = fault.line();
    let number = format!(in alloc; " {line} ")?;
    let mut text = Vec::from_slice(alloc, fault.text().as_bytes())?;
    text.extend_from_slice(number.as_bytes())?;
    text.extend_from_slice(fault.name().as_bytes())?;
    text.extend_from_slice(b"\n")?;
    Ok(text)
}

/// The line of a definition that says DOUBLE, in the MAX statement at this line.
fn double_line(alloc: Global, line: u32) -> Result<String, AllocError>
    ensures { IfOk result (λ text. string_bytes text ≡ double_line line) }
{
    format!(in alloc; "DEF {line} NotInProfile\n")
}

fn refusal_line(alloc: Global, why: Refusal) -> Result<Vec<u8>, AllocError>
    ensures { IfOk result (λ line. line.items ≡ refusal_line why) }
{
    match why {
        Refusal::Application(fault) => application_line(alloc, fault),
        Refusal::Double(line) => Ok(double_line(alloc, line)?.into_bytes()),
        Refusal::Script(fault) => Ok(script_line(alloc, fault)?.into_bytes()),
        Refusal::Trail(fault) => Ok(trail_line(alloc, fault)?.into_bytes()),
    }
}

fn status_of(why: Refusal) -> Status
    ensures status { result.code ≡ status_of why }
    ensures texts { IsOneOf (2 ∷ 3 ∷ []) result.code }
{
    match why {
        Refusal::Application(_) | Refusal::Double(_) => Status::APPLICATION,
        Refusal::Script(_) | Refusal::Trail(_) => Status::SCRIPT,
    }
}

/// Refuses texts for their first fault.
pub fn refuse_texts<D: Device>(alloc: Global, device: &mut D, why: Refusal) -> Status
    ensures code { IsOneOf (status_of why ∷ 5 ∷ 7 ∷ []) result.code }
    ensures said { IsOneOf (2 ∷ 3 ∷ []) result.code → (result.code ≡ status_of why) × (IsTrue (D.state device.old).told → Said (refusal_line why) (D.state device.old) (D.state device.new)) }
    ensures part { IsTrue (D.state device.old).told → SaidPart (refusal_line why) (D.state device.old) (D.state device.new) }
    ensures failed { result.code ≡ 5 → Rose (D.state device.old).line_faults (D.state device.new).line_faults }
    ensures fine { (result.code ≡ 5 → ⊥) → SameFaults (D.state device.old) (D.state device.new) }
    ensures frame { Frame (D.state device.old) (D.state device.new) }
    ensures names { SameNames (D.state device.old) (D.state device.new) }
{
    let Ok(line) = refusal_line(alloc, why) else {
        return Status::MEMORY;
    };
    refuse(device, &line, status_of(why))
}

/// The line of a file that was made with other texts.
fn other_generation_line(alloc: Global, stored: &[u8; 32]) -> Result<Vec<u8>, AllocError>
    ensures { IfOk result (λ line. line.items ≡ other_generation_line stored.now) }
{
    let digits = hex::encode(alloc, stored.as_slice())?;
    let mut line = Vec::from_slice(alloc, b"KDCFILE OTHER GENERATION ")?;
    line.extend_from_slice(digits.as_bytes())?;
    line.extend_from_slice(b"\n")?;
    Ok(line)
}

/// The line of a file that is refused for anything but its other texts.
fn limit_line(alloc: Global, why: &FileRefusal) -> Result<String, AllocError>
    ensures { IfOk result (λ line. ((stored : List ℕ) → why.now ≡ OtherGeneration stored → ⊥) → string_bytes line ≡ file_line why.now) }
{
    match why {
        FileRefusal::NotKdcfile => String::from_str(alloc, "KDCFILE NOT A KDCFILE\n"),
        FileRefusal::OtherGeneration(_) => Ok(String::new(alloc)),
        FileRefusal::OtherBlksize(n) => format!(in alloc; "KDCFILE OTHER BLKSIZE {n}\n"),
        FileRefusal::SmallerPool(n) => format!(in alloc; "KDCFILE SMALLER POOL {n}\n"),
        FileRefusal::TooManyGssbs(n) => format!(in alloc; "KDCFILE TOO MANY GSSBS {n}\n"),
        FileRefusal::TooLarge(n) => format!(in alloc; "KDCFILE TABLES TOO LARGE {n}\n"),
        FileRefusal::SequenceSpent => String::from_str(alloc, "KDCFILE SEQUENCE SPENT\n"),
        FileRefusal::TwoCopies => String::from_str(alloc, "KDCFILE IS DOUBLE\n"),
        FileRefusal::Differs(n) => format!(in alloc; "AUDIT {n}\n"),
    }
}

fn file_line(alloc: Global, why: &FileRefusal) -> Result<Vec<u8>, AllocError>
    ensures { IfOk result (λ line. line.items ≡ file_line why.now) }
{
    match why {
        FileRefusal::OtherGeneration(stored) => other_generation_line(alloc, stored),
        FileRefusal::NotKdcfile
        | FileRefusal::OtherBlksize(_)
        | FileRefusal::SmallerPool(_)
        | FileRefusal::TooManyGssbs(_)
        | FileRefusal::TooLarge(_)
        | FileRefusal::SequenceSpent
        | FileRefusal::TwoCopies
        | FileRefusal::Differs(_) => Ok(limit_line(alloc, why)?.into_bytes()),
    }
}

fn status_of_file(why: &FileRefusal) -> Status
    ensures status { result.code ≡ status_of_file why.now }
    ensures file { IsOneOf (4 ∷ 8 ∷ []) result.code }
{
    match why {
        FileRefusal::NotKdcfile
        | FileRefusal::OtherGeneration(_)
        | FileRefusal::OtherBlksize(_)
        | FileRefusal::SmallerPool(_)
        | FileRefusal::TooManyGssbs(_)
        | FileRefusal::TooLarge(_)
        | FileRefusal::SequenceSpent
        | FileRefusal::TwoCopies => Status::FILE,
        FileRefusal::Differs(_) => Status::AUDIT,
    }
}

/// Refuses a KDCFILE, or says which entry of a trail does not hold.
pub fn refuse_file<D: Device>(alloc: Global, device: &mut D, why: &FileRefusal) -> Status
    ensures code { IsOneOf (status_of_file why.now ∷ 5 ∷ 7 ∷ []) result.code }
    ensures said { IsOneOf (4 ∷ 8 ∷ []) result.code → (result.code ≡ status_of_file why.now) × (IsTrue (D.state device.old).told → Said (file_line why.now) (D.state device.old) (D.state device.new)) }
    ensures part { IsTrue (D.state device.old).told → SaidPart (file_line why.now) (D.state device.old) (D.state device.new) }
    ensures failed { result.code ≡ 5 → Rose (D.state device.old).line_faults (D.state device.new).line_faults }
    ensures fine { (result.code ≡ 5 → ⊥) → SameFaults (D.state device.old) (D.state device.new) }
    ensures frame { Frame (D.state device.old) (D.state device.new) }
    ensures names { SameNames (D.state device.old) (D.state device.new) }
{
    let Ok(line) = file_line(alloc, why) else {
        return Status::MEMORY;
    };
    refuse(device, &line, status_of_file(why))
}
