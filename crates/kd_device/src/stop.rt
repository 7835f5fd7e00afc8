//! What a stop leaves of a disk in memory.
ghost use Rattle.std.specs.Prelude.{◌≡◌, ◌≤◌, ◌+◌, ◌<◌, List, ℕ, length, IfOk, OnOk, if◌then◌else◌};
ghost use Rattle.kd_device.specs.{Device.{written, Torn}, History.{Disk, Moment, StopLeaves, IsDone, AllDone, is_on, moved, step_on, after, fresh}, Recording.{event, events, piece, Fits, IsInside, AllInside}};

use crate::buffer::overwrite;
use crate::call::{Call, Span};
use std::alloc::{AllocError, Global};

/// How much of a write that was not synced a stop leaves.
#[derive(Clone, Copy, PartialEq, Eq)]
enum Part {
    Nothing,
    All,
    Half,
}

// A place past all that a vector can hold is want of memory.
fn write_over(to: &mut Vec<u8>, at: usize, bytes: &[u8]) -> Result<(), AllocError>
    ensures { OnOk result (to.new.items ≡ written to.old.items at bytes.now) }
{
    let end = at.saturating_add(bytes.len());
    to.reserve(end.saturating_sub(to.len()))?;
    overwrite(to, at, bytes);
    Ok(())
}

fn write_if(to: &mut Vec<u8>, at: usize, bytes: &[u8], done: bool) -> Result<(), AllocError>
    ensures { OnOk result (to.new.items ≡ (if done then written to.old.items at bytes.now else to.old.items)) }
{
    if done {
        write_over(to, at, bytes)
    } else {
        Ok(())
    }
}

/// The write of these bytes, or none of it where the file ends before the write's range.
fn write_from(image: &mut Vec<u8>, first: usize, at: usize, bytes: &[u8]) -> Result<(), AllocError>
    requires { first ≤ at }
    ensures torn { OnOk result (Torn first (at + length bytes.now) image.old.items image.new.items) }
    ensures all { OnOk result (first ≤ length image.old.items → image.new.items ≡ written image.old.items at bytes.now) }
{
    if first <= image.len() {
        return write_over(image, at, bytes);
    }
    Ok(())
}

/// So much of the write of these bytes.
fn tear(
    image: &mut Vec<u8>,
    first: usize,
    at: usize,
    bytes: &[u8],
    part: Part,
) -> Result<(), AllocError>
    requires { first ≤ at }
    ensures torn { OnOk result (Torn first (at + length bytes.now) image.old.items image.new.items) }
    ensures old { OnOk result (part ≡ Part.Nothing → image.new.items ≡ image.old.items) }
    ensures new { OnOk result (part ≡ Part.All → first ≤ length image.old.items → image.new.items ≡ written image.old.items at bytes.now) }
{
    match part {
        Part::Nothing => Ok(()),
        Part::All => write_from(image, first, at, bytes),
        Part::Half => write_from(image, first, at, &bytes[..bytes.len() / 2]),
    }
}

/// The bytes of a span of what is kept.
fn bytes_of(alloc: Global, kept: &[u8], span: &Span) -> Result<Vec<u8>, AllocError>
    requires { Fits (length kept.now) span.now }
    ensures { IfOk result (λ v. v.items ≡ piece kept.now span.now) }
{
    let mut bytes = Vec::with_capacity(alloc, span.len + span.zeros)?;
    bytes.extend_from_slice(&kept[span.from..span.from + span.len])?;
    bytes.resize(span.len + span.zeros, 0)?;
    Ok(bytes)
}

/// One call on this disk, as reads see it and as a stop may leave it.
fn advance(
    alloc: Global,
    bytes: &mut Vec<u8>,
    image: &mut Vec<u8>,
    call: &Call,
    kept: &[u8],
    part: Part,
) -> Result<(), AllocError>
    requires { IsInside (length kept.now) call.now }
    ensures bytes { OnOk result ((d : Disk) → bytes.old.items ≡ d.bytes → bytes.new.items ≡ (moved (event kept.now call.now) d).bytes) }
    ensures old { OnOk result ((d : Disk) → part ≡ Part.Nothing → bytes.old.items ≡ d.bytes → image.old.items ≡ d.base → image.new.items ≡ (moved (event kept.now call.now) d).base) }
    ensures new { OnOk result (part ≡ Part.All → IsDone (event kept.now call.now) → image.old.items ≡ bytes.old.items → image.new.items ≡ bytes.new.items) }
    ensures image { OnOk result ((d : Disk) → bytes.old.items ≡ d.bytes → StopLeaves d image.old.items → StopLeaves (moved (event kept.now call.now) d) image.new.items) }
{
    match call {
        Call::Write { at, span, done, .. } => {
            let new = bytes_of(alloc, kept, span)?;
            let first = (*at).min(bytes.len());
            tear(image, first, *at, &new, part)?;
            write_if(bytes, *at, &new, *done)?;
            Ok(())
        }
        Call::Sync { done, .. } => {
            if *done {
                image.clear();
                image.extend_from_slice(bytes)?;
            }
            Ok(())
        }
        Call::Emit { .. } => Ok(()),
    }
}

fn is_call_on(disk: usize, call: &Call) -> bool
    ensures { (kept : List ℕ) → result ≡ is_on disk (event kept call.now) }
{
    match call {
        Call::Write { disk: of, .. } => disk == *of,
        Call::Sync { disk: of, .. } => disk == *of,
        Call::Emit { .. } => false,
    }
}

/// One call.
fn advance_if(
    alloc: Global,
    disk: usize,
    bytes: &mut Vec<u8>,
    image: &mut Vec<u8>,
    call: &Call,
    kept: &[u8],
    part: Part,
) -> Result<(), AllocError>
    requires { IsInside (length kept.now) call.now }
    ensures bytes { OnOk result ((d : Disk) → bytes.old.items ≡ d.bytes → bytes.new.items ≡ (step_on disk (event kept.now call.now) d).bytes) }
    ensures old { OnOk result ((d : Disk) → part ≡ Part.Nothing → bytes.old.items ≡ d.bytes → image.old.items ≡ d.base → image.new.items ≡ (step_on disk (event kept.now call.now) d).base) }
    ensures new { OnOk result (part ≡ Part.All → IsDone (event kept.now call.now) → image.old.items ≡ bytes.old.items → image.new.items ≡ bytes.new.items) }
    ensures image { OnOk result ((d : Disk) → bytes.old.items ≡ d.bytes → StopLeaves d image.old.items → StopLeaves (step_on disk (event kept.now call.now) d) image.new.items) }
{
    if is_call_on(disk, call) {
        advance(alloc, bytes, image, call, kept, part)
    } else {
        Ok(())
    }
}

fn part_of(digits: u64) -> Part
    ensures old { digits ≡ 0 → result ≡ Part.Nothing }
    ensures new { digits ≡ 1 → result ≡ Part.All }
{
    match digits % 3 {
        0 => Part::Nothing,
        1 => Part::All,
        _ => Part::Half,
    }
}

/// The digits after the last one, and the whole choice again after the first one.
fn next_digits(choice: u64, digits: u64) -> u64
    ensures old { choice ≡ 0 → digits ≡ 0 → result ≡ 0 }
    ensures new { choice ≡ 1 → digits ≡ 1 → result ≡ 1 }
{
    if digits < 3 { choice } else { digits / 3 }
}

/// An image that a stop after these calls may leave of a disk. The digits of the choice to base 3, from the last one on
/// and over again, say how much of a write that was not synced is left: 0 nothing, 1 all, 2 the first half.
pub fn image_after(
    alloc: Global,
    start: &[u8],
    disk: usize,
    calls: &[Call],
    kept: &[u8],
    choice: u64,
) -> Result<Vec<u8>, AllocError>
    requires { AllInside (length kept.now) calls.now }
    ensures old { choice ≡ 0 → IfOk result (λ image. (s : Moment) → s.disk disk ≡ fresh start.now → image.items ≡ ((after s (events kept.now calls.now)).disk disk).base) }
    ensures new { choice ≡ 1 → AllDone (events kept.now calls.now) → IfOk result (λ image. (s : Moment) → s.disk disk ≡ fresh start.now → image.items ≡ ((after s (events kept.now calls.now)).disk disk).bytes) }
    ensures image { IfOk result (λ image. (s : Moment) → s.disk disk ≡ fresh start.now → StopLeaves ((after s (events kept.now calls.now)).disk disk) image.items) }
{
    let mut bytes = start.to_vec(alloc)?;
    let mut image = start.to_vec(alloc)?;
    let mut digits = choice;
    for call in calls {
        let part = part_of(digits);
        advance_if(alloc, disk, &mut bytes, &mut image, call, kept, part)?;
        digits = next_digits(choice, digits);
    }
    Ok(image)
}
