//! The tables that a call starts from: those that the KDCFILE of a BASE stands for, or the one of two copies that counts.
ghost use Rattle.std.specs.Prelude.{◌≡◌, ◌++◌, ℕ, List, IfErr, IfOk, IsTrue, None, OnOk, Some};
ghost use Rattle.kd_device.specs.Room.{SameRoom};
ghost use Rattle.kdcfile_copies.specs.Finding.{IsAnswer, IsFound};
ghost use Rattle.kdcfile_double.specs.Opening.{StartsFromTwo};
ghost use Rattle.laws_of_states.specs.Suits.{Suits};
ghost use Rattle.device_acts.specs.Opening.{StartsFrom};
ghost use Rattle.refusals.specs.Texts.{NoReadFailed};
ghost use Rattle.lab_cli.specs.{Places.{IsFileRead, IsMissing, StartsOver}, Stops.{FailsSo, StopsFor, StopsOver}};
ghost use Rattle.lab_cli.specs.Stops.{IsCauseOfOne, IsCauseOfTwo};

use crate::stop::Stop;
use application_types::generation::Generation;
use device_acts::warm_start::{OpenError, read_tables};
use kd_base::{Bytes, OutOfMemory};
use kd_device::{DeviceError, Room, SureDevice};
use kdcfile_copies::{Found, load_copy};
use kdcfile_double::{TwinOpenError, are_empty, opened};
use kdcs_types::Tables;
use refusals::named;
use std::alloc::Global;

/// The most bytes of a KDCFILE: 30,000 pages of 32,768 bytes and some.
const LONGEST_FILE: u64 = 2_147_483_648;

// The bytes of the file of this BASE with this ending.
fn file_of<R: Room>(
    alloc: Global,
    room: &mut R,
    base: &[u8],
    ending: &[u8],
) -> Result<Bytes, DeviceError>
    ensures read { IfOk result (λ file. IsTrue (R.room room.old).told → IsFileRead (R.room room.old).texts (base.now ++ ending.now) file) }
    ensures fine { OnOk result (NoReadFailed (R.room room.old) (R.room room.new)) }
    ensures fails { IfErr result (FailsSo (IsMissing (R.room room.old).texts (base.now ++ ending.now)) (R.room room.old) (R.room room.new)) }
    ensures same { SameRoom (R.room room.old) (R.room room.new) }
{
    let Ok(name) = named(alloc, base, ending) else {
        return Err(DeviceError::Memory);
    };
    match room.read(alloc, &name, LONGEST_FILE) {
        Ok(file) => Ok(Bytes::from_vec(file)),
        Err(error) => Err(error),
    }
}

// The tables that a file stands for, which may be empty.
fn tables_of_file(
    alloc: Global,
    generation: &Generation,
    fingerprint: &[u8; 32],
    file: Bytes,
) -> Result<Tables, Stop>
    ensures suits { IfOk result (λ t. Suits generation.now t) }
    ensures starts { IfOk result (λ t. StartsFrom generation.now fingerprint.now file t) }
    ensures stops { IfErr result (StopsFor (IsCauseOfOne generation.now fingerprint.now file)) }
{
    let mut device = SureDevice::new(alloc, file)?;
    match read_tables(alloc, &mut device, generation, fingerprint) {
        Ok(tables) => Ok(tables),
        Err(OpenError::NotKdcfile) => Err(Stop::NotKdcfile),
        Err(OpenError::OtherGeneration(stored)) => Err(Stop::OtherGeneration(stored)),
        Err(OpenError::Failed) => unreachable!(),
        Err(OpenError::Memory) => Err(Stop::Memory),
    }
}

// What a file is of which there are two.
fn found_in(alloc: Global, file: Bytes) -> Result<Found, OutOfMemory>
    ensures found { IfOk result IsFound }
    ensures answer { IfOk result (λ f. IsAnswer f file) }
{
    let mut device = SureDevice::new(alloc, file)?;
    match load_copy(alloc, &mut device) {
        Ok(found) => Ok(found),
        Err(DeviceError::Failed) => unreachable!(),
        Err(DeviceError::Memory) => Err(OutOfMemory),
    }
}

// The tables of the copy that counts of two files that are not both empty.
fn tables_of_filled(
    alloc: Global,
    generation: &Generation,
    fingerprint: &[u8; 32],
    first: Found,
    second: Found,
) -> Result<Tables, Stop>
    requires first { IsFound first }
    requires second { IsFound second }
    requires filled { (first ≡ Found.Empty) × (second ≡ Found.Empty) → ⊥ }
    ensures suits { IfOk result (λ t. Suits generation.now t) }
    ensures starts { IfOk result (λ t. (a b : List ℕ) → IsAnswer first a → IsAnswer second b → StartsFromTwo generation.now fingerprint.now a b t) }
    ensures stops { (a b : List ℕ) → IsAnswer first a → IsAnswer second b → IfErr result (StopsFor (IsCauseOfTwo generation.now fingerprint.now a b)) }
{
    match opened(alloc, first, second, generation, fingerprint) {
        Ok((_store, tables)) => Ok(tables),
        Err(TwinOpenError::NotKdcfile) => Err(Stop::NotKdcfile),
        Err(TwinOpenError::OtherGeneration(stored)) => Err(Stop::OtherGeneration(stored)),
        Err(TwinOpenError::Spent(_)) => Err(Stop::Spent),
        Err(TwinOpenError::Failed) => unreachable!(),
        Err(TwinOpenError::Memory) => Err(Stop::Memory),
    }
}

// The tables of the copy that counts of two files.
fn tables_of_found(
    alloc: Global,
    generation: &Generation,
    fingerprint: &[u8; 32],
    first: Found,
    second: Found,
) -> Result<Tables, Stop>
    requires first { IsFound first }
    requires second { IsFound second }
    ensures suits { IfOk result (λ t. Suits generation.now t) }
    ensures starts { IfOk result (λ t. (a b : List ℕ) → IsAnswer first a → IsAnswer second b → StartsFromTwo generation.now fingerprint.now a b t) }
    ensures stops { (a b : List ℕ) → IsAnswer first a → IsAnswer second b → IfErr result (StopsFor (IsCauseOfTwo generation.now fingerprint.now a b)) }
{
    if are_empty(&first, &second) {
        return Ok(Tables::empty(alloc));
    }
    tables_of_filled(alloc, generation, fingerprint, first, second)
}

fn tables_of_files(
    alloc: Global,
    generation: &Generation,
    fingerprint: &[u8; 32],
    first: Bytes,
    second: Bytes,
) -> Result<Tables, Stop>
    ensures suits { IfOk result (λ t. Suits generation.now t) }
    ensures starts { IfOk result (λ t. StartsFromTwo generation.now fingerprint.now first second t) }
    ensures stops { IfErr result (StopsFor (IsCauseOfTwo generation.now fingerprint.now first second)) }
{
    let first = found_in(alloc, first)?;
    let second = found_in(alloc, second)?;
    tables_of_found(alloc, generation, fingerprint, first, second)
}

fn tables_of_one<R: Room>(
    alloc: Global,
    room: &mut R,
    base: &[u8],
    generation: &Generation,
    fingerprint: &[u8; 32],
) -> Result<Tables, Stop>
    ensures suits { IfOk result (λ t. Suits generation.now t) }
    ensures starts { IfOk result (λ t. IsTrue (R.room room.old).told → StartsOver None generation.now fingerprint.now base.now (R.room room.old).texts t) }
    ensures fine { OnOk result (NoReadFailed (R.room room.old) (R.room room.new)) }
    ensures stops { IfErr result (StopsOver None generation.now fingerprint.now base.now (R.room room.old) (R.room room.new)) }
    ensures same { SameRoom (R.room room.old) (R.room room.new) }
{
    let file = file_of(alloc, room, base, b".KDCA")?;
    tables_of_file(alloc, generation, fingerprint, file)
}

fn tables_of_two<R: Room>(
    alloc: Global,
    room: &mut R,
    base: &[u8],
    generation: &Generation,
    fingerprint: &[u8; 32],
) -> Result<Tables, Stop>
    ensures suits { IfOk result (λ t. Suits generation.now t) }
    ensures starts { (line : ℕ) → IfOk result (λ t. IsTrue (R.room room.old).told → StartsOver (Some line) generation.now fingerprint.now base.now (R.room room.old).texts t) }
    ensures fine { OnOk result (NoReadFailed (R.room room.old) (R.room room.new)) }
    ensures stops { (line : ℕ) → IfErr result (StopsOver (Some line) generation.now fingerprint.now base.now (R.room room.old) (R.room room.new)) }
    ensures same { SameRoom (R.room room.old) (R.room room.new) }
{
    let first = file_of(alloc, room, base, b".KDCA")?;
    let second = file_of(alloc, room, base, b".KDCB")?;
    tables_of_files(alloc, generation, fingerprint, first, second)
}

/// The tables that `utm show` would list: those of the one file of this BASE, or of two where the definition asks for them.
pub(crate) fn tables_of<R: Room>(
    alloc: Global,
    room: &mut R,
    base: &[u8],
    generation: &Generation,
    fingerprint: &[u8; 32],
) -> Result<Tables, Stop>
    ensures suits { IfOk result (λ t. Suits generation.now t) }
    ensures starts { IfOk result (λ t. IsTrue (R.room room.old).told → StartsOver generation.now.double generation.now fingerprint.now base.now (R.room room.old).texts t) }
    ensures fine { OnOk result (NoReadFailed (R.room room.old) (R.room room.new)) }
    ensures stops { IfErr result (StopsOver generation.now.double generation.now fingerprint.now base.now (R.room room.old) (R.room room.new)) }
    ensures same { SameRoom (R.room room.old) (R.room room.new) }
{
    match generation.double() {
        None => tables_of_one(alloc, room, base, generation, fingerprint),
        Some(_) => tables_of_two(alloc, room, base, generation, fingerprint),
    }
}
