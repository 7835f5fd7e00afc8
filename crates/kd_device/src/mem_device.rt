//! A device in memory, which fails the calls that it is told to fail, and can be stopped after each call.
ghost use Rattle.std.specs.Prelude.{◌≡◌, ◌≤◌, ◌+◌, ◌-◌, ◌↔◌, [], ◌∷◌, ◌++◌, IsTrue, length, take, drop, min, IfOk, OnOk, OnErr, IsErr, refl};
ghost use Rattle.kd_device.specs.{Device.{Rose, Frame, SameDiskFaults, SameLineFaults, SameNames, SameSpare, UsesSpare, HasSpare, Reserved, Quiet, Writes, Emits, Only}, History.{AllDone, at_first}};
ghost use Rattle.kd_device.specs.{HistoryLaws.{now_to, has_bytes, sent_is, since_less}, Recording.{disk_of, disk_at, moment_of, moment_at}};
ghost use Rattle.kd_device.specs.Memory.{OfOne, unused, state_of, leaves_of, Fails, EmitFails, Counts, CountsEmit, SameCalls, counted, emit_counted};

use crate::buffer::read_part;
use crate::device::{Device, Failed, answer};
use crate::half::Half;
use crate::kind::CallKind;
use crate::tally::Tally;
use crate::tape::Tape;
use kd_base::{Bytes, OutOfMemory};
use std::alloc::Global;
use std::marker::Model;

/// A disk file and an output line in memory: a tape of one disk. Contracts see the calls that were made and those that
/// fail.
pub struct MemDevice {
    tape: Tape,
    failing: Vec<(Half, CallKind, u64)>,
    disk: Tally,
    line: Tally,
}

impl Drop for MemDevice {
    fn drop(self) {
        let MemDevice {
            tape,
            failing,
            disk,
            line,
        } = self;
        let _ = tape;
        let _ = failing;
        let _ = disk;
        let _ = line;
    }
}

impl Model for MemDevice {
    ghost use Rattle.std.specs.Prelude.{◌≡◌, length};
    ghost use Rattle.kd_device.specs.Memory.{Memory};

    ghost Value = { Memory };

    ghost view = { λ m. record { recording = m.tape; failing = m.failing.items; disk = m.disk; line = m.line } };

    ghost invariant = { λ m. length m.tape.starts ≡ 1 };
}

impl MemDevice {
    /// A device with this file, all of it on the disk, that fails the calls of the first half with these numbers, counted
    /// from 1 for each kind. The half beside an emit is not looked at.
    pub fn new(
        alloc: Global,
        start: Bytes,
        failing: Vec<(Half, CallKind, u64)>,
    ) -> Result<MemDevice, OutOfMemory>
        ensures value { IfOk result (λ m. m ≡ unused start failing.items) }
        ensures told { IfOk result (λ m. IsTrue (state_of m).told) }
        ensures holds { IfOk result (λ m. (state_of m).holds ≡ start) }
        ensures sent { IfOk result (λ m. (state_of m).sent ≡ []) }
        ensures only { IfOk result (λ m. Only start (state_of m) (leaves_of m)) }
    {
        let mut tape = Tape::new(alloc);
        tape.add(alloc, start)?;
        Ok(MemDevice {
            tape,
            failing,
            disk: Tally::none(),
            line: Tally::none(),
        })
    }

    /// The bytes of the disk, as reads give them.
    pub fn holds(&self) -> &[u8]
        ensures { result.now ≡ (state_of self.now).holds }
    {
        self.tape.holds(0)
    }

    /// All that was emitted.
    pub fn sent(&self) -> &[u8]
        ensures { result.now ≡ (state_of self.now).sent }
    {
        self.tape.sent()
    }

    /// How many writes, syncs and emits there were.
    pub fn calls(&self) -> u64
        ensures { result ≡ length self.now.recording.events }
    {
        self.tape.calls()
    }

    /// A device that a stop after so many calls may leave, with nothing sent and nothing pending, of which no call fails.
    /// Choice 0 keeps the old bytes of every range that was not synced, 1 the new ones, and any other a mixture: its digits
    /// to base 3 say, call by call, whether a write is left out, left, or left by half.
    pub fn after_stop(
        &self,
        alloc: Global,
        call: u64,
        choice: u64,
    ) -> Result<MemDevice, OutOfMemory>
        requires { call ≤ length self.now.recording.events }
        ensures value { IfOk result (λ m. m ≡ unused (state_of m).holds []) }
        ensures image { IfOk result (λ m. leaves_of self.now call (state_of m).holds (moment_at call self.now.recording).sent) }
        ensures old { choice ≡ 0 → IfOk result (λ m. (state_of m).holds ≡ (disk_at 0 call self.now.recording).base) }
        ensures new { choice ≡ 1 → AllDone (take call self.now.recording.events) → IfOk result (λ m. (state_of m).holds ≡ (disk_at 0 call self.now.recording).bytes) }
        ensures only { IfOk result (λ m. Only (state_of m).holds (state_of m) (leaves_of m)) }
    {
        let image = self.tape.stopped(alloc, 0, call, choice)?;
        MemDevice::new(alloc, image, Vec::new(alloc))
    }

    /// Counts a call of the disk, and answers whether it fails.
    fn fails_disk(&mut self, kind: CallKind) -> bool
        ensures fails { IsTrue result ↔ Fails kind self.old }
        ensures counted { self.new ≡ counted kind result self.old }
    {
        self.disk.fails(&self.failing, Half::First, kind)
    }

    /// Counts an emit, and answers whether it fails.
    fn fails_line(&mut self) -> bool
        ensures fails { IsTrue result → EmitFails self.old }
        ensures only { EmitFails self.old → IsTrue result }
        ensures counted { self.new ≡ emit_counted result self.old }
    {
        self.line.fails_emit(&self.failing)
    }
}

impl Device for MemDevice {
    ghost state = { state_of };

    ghost leaves = { leaves_of };

    fn attach(&mut self, name: &[u8]) -> Result<(), Failed>
        requires { HasSpare (length name.now) (state_of self.old) }
        ensures failed { OnErr result (Rose (state_of self.old).disk_faults (state_of self.new).disk_faults) }
        ensures fine { OnOk result (SameDiskFaults (state_of self.old) (state_of self.new)) }
        ensures line { SameLineFaults (state_of self.old) (state_of self.new) }
        ensures frame { Frame (state_of self.old) (state_of self.new) }
        ensures spare { UsesSpare (length name.now) (state_of self.old) (state_of self.new) }
        ensures names { IsTrue (state_of self.old).told → (state_of self.new).names ≡ (state_of self.old).names ++ name.now ∷ [] }
        ensures content { IsTrue (state_of self.old).told → Quiet (state_of self.old) (state_of self.new) (leaves_of self.old) (leaves_of self.new) }
        ensures fails { IsErr result ↔ Fails CallKind.Attach self.old }
        ensures counted { Counts CallKind.Attach self.old self.new }
    {
        let fails = self.fails_disk(CallKind::Attach);
        self.tape.named(0, name);
        answer(fails)
    }

    fn reserve(&mut self, calls: u64, bytes: u64, end: u64) -> Result<(), OutOfMemory>
        ensures spare { OnOk result (Reserved calls bytes end (state_of self.new)) }
        ensures disk { SameDiskFaults (state_of self.old) (state_of self.new) }
        ensures line { SameLineFaults (state_of self.old) (state_of self.new) }
        ensures frame { Frame (state_of self.old) (state_of self.new) }
        ensures names { SameNames (state_of self.old) (state_of self.new) }
        ensures content { IsTrue (state_of self.old).told → Quiet (state_of self.old) (state_of self.new) (leaves_of self.old) (leaves_of self.new) }
        ensures counted { SameCalls self.old self.new }
    {
        self.tape.reserve(calls, bytes, end)
    }

    fn size(&mut self) -> Result<u64, Failed>
        ensures value { IfOk result (λ n. IsTrue (state_of self.old).told → n ≡ length (state_of self.old).holds) }
        ensures failed { OnErr result (Rose (state_of self.old).disk_faults (state_of self.new).disk_faults) }
        ensures fine { OnOk result (SameDiskFaults (state_of self.old) (state_of self.new)) }
        ensures line { SameLineFaults (state_of self.old) (state_of self.new) }
        ensures frame { Frame (state_of self.old) (state_of self.new) }
        ensures spare { SameSpare (state_of self.old) (state_of self.new) }
        ensures names { SameNames (state_of self.old) (state_of self.new) }
        ensures content { IsTrue (state_of self.old).told → Quiet (state_of self.old) (state_of self.new) (leaves_of self.old) (leaves_of self.new) }
        ensures fails { IsErr result ↔ Fails CallKind.Size self.old }
        ensures counted { Counts CallKind.Size self.old self.new }
    {
        if self.fails_disk(CallKind::Size) {
            return Err(Failed);
        }
        Ok(self.holds().len() as u64)
    }

    fn read_at(&mut self, at: u64, into: &mut [u8]) -> Result<usize, Failed>
        ensures count { IfOk result (λ n. IsTrue (state_of self.old).told → n ≡ min (length into.old) (length (state_of self.old).holds - at)) }
        ensures bytes { IfOk result (λ n. IsTrue (state_of self.old).told → into.new ≡ take n (drop at (state_of self.old).holds) ++ drop n into.old) }
        ensures bound { IfOk result (λ n. n ≤ length into.old) }
        ensures failed { OnErr result (Rose (state_of self.old).disk_faults (state_of self.new).disk_faults) }
        ensures fine { OnOk result (SameDiskFaults (state_of self.old) (state_of self.new)) }
        ensures line { SameLineFaults (state_of self.old) (state_of self.new) }
        ensures frame { Frame (state_of self.old) (state_of self.new) }
        ensures spare { SameSpare (state_of self.old) (state_of self.new) }
        ensures names { SameNames (state_of self.old) (state_of self.new) }
        ensures content { IsTrue (state_of self.old).told → Quiet (state_of self.old) (state_of self.new) (leaves_of self.old) (leaves_of self.new) }
        ensures fails { IsErr result ↔ Fails CallKind.Read self.old }
        ensures counted { Counts CallKind.Read self.old self.new }
    {
        if self.fails_disk(CallKind::Read) {
            return Err(Failed);
        }
        Ok(read_part(self.holds(), at, into))
    }

    fn write_at(&mut self, at: u64, bytes: &[u8]) -> Result<(), Failed>
        requires spare { HasSpare (length bytes.now) (state_of self.old) }
        requires inside { at + length bytes.now ≤ (state_of self.old).spare_end }
        ensures failed { OnErr result (Rose (state_of self.old).disk_faults (state_of self.new).disk_faults) }
        ensures fine { OnOk result (SameDiskFaults (state_of self.old) (state_of self.new)) }
        ensures line { SameLineFaults (state_of self.old) (state_of self.new) }
        ensures frame { Frame (state_of self.old) (state_of self.new) }
        ensures spare { UsesSpare (length bytes.now) (state_of self.old) (state_of self.new) }
        ensures names { SameNames (state_of self.old) (state_of self.new) }
        ensures content { IsTrue (state_of self.old).told → Writes at bytes.now (state_of self.old) (state_of self.new) (leaves_of self.old) (leaves_of self.new) result }
        ensures fails { IsErr result ↔ Fails CallKind.Write self.old }
        ensures counted { Counts CallKind.Write self.old self.new }
    {
        let fails = self.fails_disk(CallKind::Write);
        self.tape.wrote(0, at as usize, bytes, !fails);
        answer(fails)
    }

    fn sync(&mut self) -> Result<(), Failed>
        requires { HasSpare 0 (state_of self.old) }
        ensures failed { OnErr result (Rose (state_of self.old).disk_faults (state_of self.new).disk_faults) }
        ensures fine { OnOk result (SameDiskFaults (state_of self.old) (state_of self.new)) }
        ensures line { SameLineFaults (state_of self.old) (state_of self.new) }
        ensures frame { Frame (state_of self.old) (state_of self.new) }
        ensures spare { UsesSpare 0 (state_of self.old) (state_of self.new) }
        ensures names { SameNames (state_of self.old) (state_of self.new) }
        ensures content { IsTrue (state_of self.old).told → Quiet (state_of self.old) (state_of self.new) (leaves_of self.old) (leaves_of self.new) }
        ensures durable { OnOk result (IsTrue (state_of self.old).told → Only (state_of self.old).holds (state_of self.new) (leaves_of self.new)) }
        ensures fails { IsErr result ↔ Fails CallKind.Sync self.old }
        ensures counted { Counts CallKind.Sync self.old self.new }
    {
        let fails = self.fails_disk(CallKind::Sync);
        self.tape.synced(0, !fails);
        answer(fails)
    }

    fn emit(&mut self, piece: &[u8]) -> Result<(), Failed>
        requires { HasSpare (length piece.now) (state_of self.old) }
        ensures failed { OnErr result (Rose (state_of self.old).line_faults (state_of self.new).line_faults) }
        ensures fine { OnOk result (SameLineFaults (state_of self.old) (state_of self.new)) }
        ensures disk { SameDiskFaults (state_of self.old) (state_of self.new) }
        ensures frame { Frame (state_of self.old) (state_of self.new) }
        ensures spare { UsesSpare (length piece.now) (state_of self.old) (state_of self.new) }
        ensures names { SameNames (state_of self.old) (state_of self.new) }
        ensures content { IsTrue (state_of self.old).told → Emits piece.now (state_of self.old) (state_of self.new) (leaves_of self.old) (leaves_of self.new) result }
        ensures fails { IsErr result ↔ EmitFails self.old }
        ensures counted { CountsEmit self.old self.new }
    {
        let fails = self.fails_line();
        self.tape.emitted(piece, !fails);
        answer(fails)
    }

    ghost holds_now = { λ m told. now_to (OfOne (disk_of 0 m.recording).bytes) (at_first m.recording.starts) m.recording.events (moment_of m.recording).sent (has_bytes 0 m.recording.starts m.recording.events, refl) };

    ghost sent_now = { λ m c out told left. sent_is (OfOne c) m.recording.starts m.recording.events out left };

    ghost earlier = { λ m t u c out told le left. since_less (OfOne c) t u (at_first m.recording.starts) m.recording.events out le left };
}
