//! Disk files and an output line in memory, with the calls that were made.
ghost use Rattle.std.specs.Prelude.{◌≡◌, ◌≤◌, ◌<◌, ◌+◌, [], length, take, IfOk, OnErr, OnOk};
ghost use Rattle.kd_device.specs.{History.{Wrote, Synced, Emitted, StopLeaves, AllDone}, Recording.{Recording, blank, moment_of, disk_of, disk_at, with_disk, with_event, with_name, reserved}};

use crate::buffer::{append_if, keep, put};
use crate::call::{Call, Span};
use crate::file::{File, reserve_all};
use crate::stop::image_after;
use kd_base::{Bytes, OutOfMemory};
use std::alloc::Global;
use std::marker::Model;

/// The files at first and now, one for each disk, what was sent, and the calls between as flat data. Contracts see the
/// calls. The disks are numbered from 0 on.
pub struct Tape {
    files: Vec<File>,
    sent: Vec<u8>,
    made: Vec<Call>,
    kept: Vec<u8>,
    names: Vec<(usize, Span)>,
    spare_calls: u64,
    spare_bytes: u64,
    spare_end: u64,
}

impl Drop for Tape {
    fn drop(self) {
        let Tape {
            files,
            sent,
            made,
            kept,
            names,
            spare_calls,
            spare_bytes,
            spare_end,
        } = self;
        let _ = files;
        let _ = sent;
        let _ = made;
        let _ = kept;
        let _ = names;
        let _ = spare_calls;
        let _ = spare_bytes;
        let _ = spare_end;
    }
}

impl Model for Tape {
    ghost use Rattle.std.specs.Vec.{vec_len, vec_capacity};
    ghost use Rattle.kd_device.specs.Recording.{Recording, starts_of, events, kept_names, IsRecording, HasCapacity};

    ghost Value = { Recording };

    ghost view = { λ m. record { starts = starts_of m.files.items; events = events m.kept.items m.made.items; names = kept_names m.kept.items m.names.items; spare_calls = m.spare_calls; spare_bytes = m.spare_bytes; spare_end = m.spare_end } };

    ghost invariant = { λ m. IsRecording m.files.items m.sent.items m.kept.items m.made.items m.names.items
        × HasCapacity m.spare_calls m.spare_bytes m.spare_end m.files.items (vec_len m.made) (vec_capacity m.made) (vec_len m.kept) (vec_capacity m.kept) (vec_len m.sent) (vec_capacity m.sent) (vec_len m.names) (vec_capacity m.names) };
}

impl Tape {
    /// A line with nothing sent, and no disk. It takes no memory.
    pub fn new(alloc: Global) -> Tape
        ensures { result ≡ blank [] }
    {
        Tape {
            files: Vec::new(alloc),
            sent: Vec::new(alloc),
            made: Vec::new(alloc),
            kept: Vec::new(alloc),
            names: Vec::new(alloc),
            spare_calls: 0,
            spare_bytes: 0,
            spare_end: 0,
        }
    }

    /// One disk more, before the first call, with this file on it.
    pub fn add(&mut self, alloc: Global, start: Bytes) -> Result<(), OutOfMemory>
        requires { self.old ≡ blank self.old.starts }
        ensures { OnOk result (self.new ≡ with_disk self.old start) }
    {
        let file = File::new(alloc, start)?;
        self.files.push(file)?;
        Ok(())
    }

    pub fn holds(&self, disk: usize) -> &[u8]
        requires { disk < length self.now.starts }
        ensures { result.now ≡ (disk_of disk self.now).bytes }
    {
        self.files[disk].bytes()
    }

    pub fn sent(&self) -> &[u8]
        ensures { result.now ≡ (moment_of self.now).sent }
    {
        &self.sent
    }

    /// How many writes, syncs and emits there were.
    pub fn calls(&self) -> u64
        ensures { result ≡ length self.now.events }
    {
        self.made.len() as u64
    }

    /// Afterwards so many calls of so many bytes together, with no write past `end`, take no memory.
    pub fn reserve(&mut self, calls: u64, bytes: u64, end: u64) -> Result<(), OutOfMemory>
        ensures ok { OnOk result (self.new ≡ reserved self.old calls bytes end) }
        ensures err { OnErr result (self.new ≡ self.old) }
    {
        let end = self.spare_end.max(end);
        self.made.reserve(calls as usize)?;
        self.kept.reserve(bytes as usize)?;
        self.sent.reserve(bytes as usize)?;
        self.names.reserve(calls as usize)?;
        reserve_all(&mut self.files, end)?;
        self.spare_calls = self.spare_calls.max(calls);
        self.spare_bytes = self.spare_bytes.max(bytes);
        self.spare_end = end;
        Ok(())
    }

    /// A file of this name was attached.
    pub fn named(&mut self, disk: usize, name: &[u8])
        requires calls { 1 ≤ self.old.spare_calls }
        requires bytes { length name.now ≤ self.old.spare_bytes }
        ensures { self.new ≡ with_name self.old disk name.now }
    {
        let span = keep(&mut self.kept, name);
        put(&mut self.names, (disk, span));
        self.spare_calls -= 1;
        self.spare_bytes -= name.len() as u64;
    }

    /// These bytes were written at this place, or nothing was where it was not done.
    pub fn wrote(&mut self, disk: usize, at: usize, bytes: &[u8], done: bool)
        requires disk { disk < length self.old.starts }
        requires calls { 1 ≤ self.old.spare_calls }
        requires bytes { length bytes.now ≤ self.old.spare_bytes }
        requires inside { at + length bytes.now ≤ self.old.spare_end }
        ensures { self.new ≡ with_event self.old (Wrote disk at bytes.now done) (length bytes.now) }
    {
        let span = keep(&mut self.kept, bytes);
        let call = Call::Write {
            disk,
            at,
            span,
            done,
        };
        put(&mut self.made, call);
        let file = &mut self.files[disk];
        file.write(at, bytes, done);
        self.spare_calls -= 1;
        self.spare_bytes -= bytes.len() as u64;
    }

    /// What was written of that disk is on it, where it was done.
    pub fn synced(&mut self, disk: usize, done: bool)
        requires { 1 ≤ self.old.spare_calls }
        ensures { self.new ≡ with_event self.old (Synced disk done) 0 }
    {
        put(&mut self.made, Call::Sync { disk, done });
        self.spare_calls -= 1;
    }

    /// This piece was sent, or nothing was where it was not done.
    pub fn emitted(&mut self, piece: &[u8], done: bool)
        requires calls { 1 ≤ self.old.spare_calls }
        requires bytes { length piece.now ≤ self.old.spare_bytes }
        ensures { self.new ≡ with_event self.old (Emitted piece.now done) (length piece.now) }
    {
        let span = keep(&mut self.kept, piece);
        put(&mut self.made, Call::Emit { span, done });
        append_if(&mut self.sent, piece, done);
        self.spare_calls -= 1;
        self.spare_bytes -= piece.len() as u64;
    }

    /// A file of this disk that a stop after so many calls may leave. Choice 0 keeps the old bytes of every range that was
    /// not synced, 1 the new ones, and any other a mixture: its digits to base 3 say, call by call, whether a write is left
    /// out, left, or left by half.
    pub fn stopped(
        &self,
        alloc: Global,
        disk: usize,
        call: u64,
        choice: u64,
    ) -> Result<Bytes, OutOfMemory>
        requires disk { disk < length self.now.starts }
        requires call { call ≤ length self.now.events }
        ensures image { IfOk result (λ file. StopLeaves (disk_at disk call self.now) file) }
        ensures old { choice ≡ 0 → IfOk result (λ file. file ≡ (disk_at disk call self.now).base) }
        ensures new { choice ≡ 1 → AllDone (take call self.now.events) → IfOk result (λ file. file ≡ (disk_at disk call self.now).bytes) }
    {
        let calls = &self.made[..call as usize];
        let start = self.files[disk].start();
        let image = image_after(alloc, start, disk, calls, &self.kept, choice)?;
        Ok(Bytes::from_vec(image))
    }
}
