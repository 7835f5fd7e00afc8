//! A twin in memory, which fails the calls that it is told to fail, and can be stopped after each call.
ghost use Rattle.std.specs.Prelude.{◌≡◌, ◌≤◌, ◌↔◌, ◌+◌, ◌-◌, ◌++◌, ◌∷◌, [], List, ℕ, IsTrue, length, take, drop, min, IfOk, OnOk, OnErr, IsErr, refl};
ghost use Rattle.kd_device.specs.Device.{Rose, Frame, SameDiskFaults, SameLineFaults, SameNames, SameSpare, UsesSpare, HasSpare, Reserved, Quiet, Writes, Emits, Only};
ghost use Rattle.kd_device.specs.{Twin.{other, disk_number, disk_of, half_state, slice, half_leaves}, Apart.{Parted}, History.{AllDone, at_first}};
ghost use Rattle.kd_device.specs.{HistoryLaws.{now_to, has_bytes, sent_is, since_less}, Recording.{disk_at, moment_of, moment_at}, Memory.{OfBoth}};
ghost use Rattle.kd_device.specs.Recording as tapes;
ghost use Rattle.kd_device.specs.TwinMemory.{unused, both_of, both_left, place_of, Fails, EmitFails, Counts, CountsEmit, SameCalls, counted, emit_counted};

use crate::buffer::read_part;
use crate::device::{Failed, answer};
use crate::half::Half;
use crate::kind::CallKind;
use crate::tally::Tally;
use crate::tape::Tape;
use crate::twin::Twin;
use kd_base::{Bytes, OutOfMemory};
use std::alloc::Global;
use std::marker::Model;

/// Two disk files and an output line in memory: a tape of two disks. Contracts see the calls that were made and those that
/// fail.
pub struct MemTwin {
    tape: Tape,
    failing: Vec<(Half, CallKind, u64)>,
    first: Tally,
    second: Tally,
    line: Tally,
}

impl Drop for MemTwin {
    fn drop(self) {
        let MemTwin {
            tape,
            failing,
            first,
            second,
            line,
        } = self;
        let _ = tape;
        let _ = failing;
        let _ = first;
        let _ = second;
        let _ = line;
    }
}

impl Model for MemTwin {
    ghost use Rattle.std.specs.Prelude.{◌≡◌, length};
    ghost use Rattle.kd_device.specs.TwinMemory.{TwinMemory};

    ghost Value = { TwinMemory };

    ghost view = { λ m. record { recording = m.tape; failing = m.failing.items; first = m.first; second = m.second; line = m.line } };

    ghost invariant = { λ m. length m.tape.starts ≡ 2 };
}

impl MemTwin {
    /// A twin with these files, all of them on the disks, that fails the calls with these numbers, counted from 1 for
    /// each half and kind. The half beside an emit is not looked at.
    pub fn new(
        alloc: Global,
        first: Bytes,
        second: Bytes,
        failing: Vec<(Half, CallKind, u64)>,
    ) -> Result<MemTwin, OutOfMemory>
        ensures value { IfOk result (λ m. m ≡ unused first second failing.items) }
        ensures told { IfOk result (λ m. IsTrue (both_of m).told) }
        ensures first { IfOk result (λ m. (both_of m).first.holds ≡ first) }
        ensures second { IfOk result (λ m. (both_of m).second.holds ≡ second) }
        ensures sent { IfOk result (λ m. (both_of m).sent ≡ []) }
        ensures only { IfOk result (λ m. (half : Half) → Only (half_state half (both_of m)).holds (half_state half (both_of m)) (half_leaves half (both_left m))) }
    {
        let mut tape = Tape::new(alloc);
        tape.add(alloc, first)?;
        tape.add(alloc, second)?;
        Ok(MemTwin {
            tape,
            failing,
            first: Tally::none(),
            second: Tally::none(),
            line: Tally::none(),
        })
    }

    /// The bytes of a half's disk, as reads give them.
    pub fn holds(&self, half: Half) -> &[u8]
        ensures { result.now ≡ (half_state half (both_of self.now)).holds }
    {
        self.tape.holds(half.number())
    }

    /// All that was emitted.
    pub fn sent(&self) -> &[u8]
        ensures { result.now ≡ (both_of self.now).sent }
    {
        self.tape.sent()
    }

    /// How many writes, syncs and emits there were, on both halves and the line together.
    pub fn calls(&self) -> u64
        ensures { result ≡ length self.now.recording.events }
    {
        self.tape.calls()
    }

    /// A twin that a stop after so many calls may leave, with nothing sent and nothing pending, of which no call fails.
    /// Choice 0 keeps the old bytes of every range that was not synced, 1 the new ones, and any other a mixture: its digits
    /// to base 3 say, call by call, whether a write is left out, left, or left by half.
    pub fn after_stop(&self, alloc: Global, call: u64, choice: u64) -> Result<MemTwin, OutOfMemory>
        requires { call ≤ length self.now.recording.events }
        ensures value { IfOk result (λ m. m ≡ unused (both_of m).first.holds (both_of m).second.holds []) }
        ensures image { IfOk result (λ m. both_left self.now call (both_of m).first.holds (both_of m).second.holds (moment_at call self.now.recording).sent) }
        ensures old { choice ≡ 0 → IfOk result (λ m. (half : Half) → (half_state half (both_of m)).holds ≡ (disk_at (disk_number half) call self.now.recording).base) }
        ensures new { choice ≡ 1 → AllDone (take call self.now.recording.events) → IfOk result (λ m. (half : Half) → (half_state half (both_of m)).holds ≡ (disk_at (disk_number half) call self.now.recording).bytes) }
        ensures only { IfOk result (λ m. (half : Half) → Only (half_state half (both_of m)).holds (half_state half (both_of m)) (half_leaves half (both_left m))) }
    {
        let first = self.tape.stopped(alloc, 0, call, choice)?;
        let second = self.tape.stopped(alloc, 1, call, choice)?;
        MemTwin::new(alloc, first, second, Vec::new(alloc))
    }

    /// Counts a call of a half's disk, and answers whether it fails.
    fn fails_disk(&mut self, half: Half, kind: CallKind) -> bool
        ensures fails { IsTrue result ↔ Fails half kind self.old }
        ensures counted { self.new ≡ counted half kind result self.old }
    {
        match half {
            Half::First => self.first.fails(&self.failing, half, kind),
            Half::Second => self.second.fails(&self.failing, half, kind),
        }
    }

    /// Counts an emit, and answers whether it fails.
    fn fails_line(&mut self) -> bool
        ensures fails { IsTrue result → EmitFails self.old }
        ensures only { EmitFails self.old → IsTrue result }
        ensures counted { self.new ≡ emit_counted result self.old }
    {
        self.line.fails_emit(&self.failing)
    }
}

impl Twin for MemTwin {
    ghost both = { both_of };

    ghost leaves = { both_left };

    ghost place = { place_of };

    fn attach(&mut self, half: Half, name: &[u8]) -> Result<(), Failed>
        requires { HasSpare (length name.now) (half_state half (both_of self.old)) }
        ensures failed { OnErr result (Rose (half_state half (both_of self.old)).disk_faults (half_state half (both_of self.new)).disk_faults) }
        ensures fine { OnOk result (SameDiskFaults (half_state half (both_of self.old)) (half_state half (both_of self.new))) }
        ensures line { SameLineFaults (half_state half (both_of self.old)) (half_state half (both_of self.new)) }
        ensures frame { Frame (half_state half (both_of self.old)) (half_state half (both_of self.new)) }
        ensures spare { UsesSpare (length name.now) (half_state half (both_of self.old)) (half_state half (both_of self.new)) }
        ensures names { IsTrue (both_of self.old).told → (half_state half (both_of self.new)).names ≡ (half_state half (both_of self.old)).names ++ name.now ∷ [] }
        ensures content { IsTrue (both_of self.old).told → (d : List ℕ) → Quiet (half_state half (both_of self.old)) (half_state half (both_of self.new)) (slice half d (both_left self.old)) (slice half d (both_left self.new)) }
        ensures other_half { disk_of (other half) (both_of self.new) ≡ disk_of (other half) (both_of self.old) }
        ensures place { place_of self.new ≡ place_of self.old }
        ensures fails { IsErr result ↔ Fails half CallKind.Attach self.old }
        ensures counted { Counts half CallKind.Attach self.old self.new }
    {
        let fails = self.fails_disk(half, CallKind::Attach);
        self.tape.named(half.number(), name);
        answer(fails)
    }

    fn reserve(&mut self, calls: u64, bytes: u64, end: u64) -> Result<(), OutOfMemory>
        ensures spare { (half : Half) → OnOk result (Reserved calls bytes end (half_state half (both_of self.new))) }
        ensures disk { (half : Half) → disk_of half (both_of self.new) ≡ disk_of half (both_of self.old) }
        ensures line { (both_of self.new).line_faults ≡ (both_of self.old).line_faults }
        ensures frame { (half : Half) → Frame (half_state half (both_of self.old)) (half_state half (both_of self.new)) }
        ensures content { IsTrue (both_of self.old).told → (half : Half) (d : List ℕ) → Quiet (half_state half (both_of self.old)) (half_state half (both_of self.new)) (slice half d (both_left self.old)) (slice half d (both_left self.new)) }
        ensures place { place_of self.new ≡ place_of self.old }
        ensures counted { SameCalls self.old self.new }
    {
        self.tape.reserve(calls, bytes, end)
    }

    fn size(&mut self, half: Half) -> Result<u64, Failed>
        ensures value { IfOk result (λ n. IsTrue (both_of self.old).told → n ≡ length (half_state half (both_of self.old)).holds) }
        ensures failed { OnErr result (Rose (half_state half (both_of self.old)).disk_faults (half_state half (both_of self.new)).disk_faults) }
        ensures fine { OnOk result (SameDiskFaults (half_state half (both_of self.old)) (half_state half (both_of self.new))) }
        ensures line { SameLineFaults (half_state half (both_of self.old)) (half_state half (both_of self.new)) }
        ensures frame { Frame (half_state half (both_of self.old)) (half_state half (both_of self.new)) }
        ensures spare { SameSpare (half_state half (both_of self.old)) (half_state half (both_of self.new)) }
        ensures names { SameNames (half_state half (both_of self.old)) (half_state half (both_of self.new)) }
        ensures content { IsTrue (both_of self.old).told → (d : List ℕ) → Quiet (half_state half (both_of self.old)) (half_state half (both_of self.new)) (slice half d (both_left self.old)) (slice half d (both_left self.new)) }
        ensures other_half { disk_of (other half) (both_of self.new) ≡ disk_of (other half) (both_of self.old) }
        ensures place { place_of self.new ≡ place_of self.old }
        ensures fails { IsErr result ↔ Fails half CallKind.Size self.old }
        ensures counted { Counts half CallKind.Size self.old self.new }
    {
        if self.fails_disk(half, CallKind::Size) {
            return Err(Failed);
        }
        Ok(self.holds(half).len() as u64)
    }

    fn read_at(&mut self, half: Half, at: u64, into: &mut [u8]) -> Result<usize, Failed>
        ensures count { IfOk result (λ n. IsTrue (both_of self.old).told → n ≡ min (length into.old) (length (half_state half (both_of self.old)).holds - at)) }
        ensures bytes { IfOk result (λ n. IsTrue (both_of self.old).told → into.new ≡ take n (drop at (half_state half (both_of self.old)).holds) ++ drop n into.old) }
        ensures bound { IfOk result (λ n. n ≤ length into.old) }
        ensures failed { OnErr result (Rose (half_state half (both_of self.old)).disk_faults (half_state half (both_of self.new)).disk_faults) }
        ensures fine { OnOk result (SameDiskFaults (half_state half (both_of self.old)) (half_state half (both_of self.new))) }
        ensures line { SameLineFaults (half_state half (both_of self.old)) (half_state half (both_of self.new)) }
        ensures frame { Frame (half_state half (both_of self.old)) (half_state half (both_of self.new)) }
        ensures spare { SameSpare (half_state half (both_of self.old)) (half_state half (both_of self.new)) }
        ensures names { SameNames (half_state half (both_of self.old)) (half_state half (both_of self.new)) }
        ensures content { IsTrue (both_of self.old).told → (d : List ℕ) → Quiet (half_state half (both_of self.old)) (half_state half (both_of self.new)) (slice half d (both_left self.old)) (slice half d (both_left self.new)) }
        ensures other_half { disk_of (other half) (both_of self.new) ≡ disk_of (other half) (both_of self.old) }
        ensures place { place_of self.new ≡ place_of self.old }
        ensures fails { IsErr result ↔ Fails half CallKind.Read self.old }
        ensures counted { Counts half CallKind.Read self.old self.new }
    {
        if self.fails_disk(half, CallKind::Read) {
            return Err(Failed);
        }
        Ok(read_part(self.holds(half), at, into))
    }

    fn write_at(&mut self, half: Half, at: u64, bytes: &[u8]) -> Result<(), Failed>
        requires spare { HasSpare (length bytes.now) (half_state half (both_of self.old)) }
        requires inside { at + length bytes.now ≤ (half_state half (both_of self.old)).spare_end }
        ensures failed { OnErr result (Rose (half_state half (both_of self.old)).disk_faults (half_state half (both_of self.new)).disk_faults) }
        ensures fine { OnOk result (SameDiskFaults (half_state half (both_of self.old)) (half_state half (both_of self.new))) }
        ensures line { SameLineFaults (half_state half (both_of self.old)) (half_state half (both_of self.new)) }
        ensures frame { Frame (half_state half (both_of self.old)) (half_state half (both_of self.new)) }
        ensures spare { UsesSpare (length bytes.now) (half_state half (both_of self.old)) (half_state half (both_of self.new)) }
        ensures names { SameNames (half_state half (both_of self.old)) (half_state half (both_of self.new)) }
        ensures content { IsTrue (both_of self.old).told → (d : List ℕ) → Writes at bytes.now (half_state half (both_of self.old)) (half_state half (both_of self.new)) (slice half d (both_left self.old)) (slice half d (both_left self.new)) result }
        ensures other_half { disk_of (other half) (both_of self.new) ≡ disk_of (other half) (both_of self.old) }
        ensures place { place_of self.new ≡ place_of self.old }
        ensures fails { IsErr result ↔ Fails half CallKind.Write self.old }
        ensures counted { Counts half CallKind.Write self.old self.new }
    {
        let fails = self.fails_disk(half, CallKind::Write);
        self.tape.wrote(half.number(), at as usize, bytes, !fails);
        answer(fails)
    }

    fn sync(&mut self, half: Half) -> Result<(), Failed>
        requires { HasSpare 0 (half_state half (both_of self.old)) }
        ensures failed { OnErr result (Rose (half_state half (both_of self.old)).disk_faults (half_state half (both_of self.new)).disk_faults) }
        ensures fine { OnOk result (SameDiskFaults (half_state half (both_of self.old)) (half_state half (both_of self.new))) }
        ensures line { SameLineFaults (half_state half (both_of self.old)) (half_state half (both_of self.new)) }
        ensures frame { Frame (half_state half (both_of self.old)) (half_state half (both_of self.new)) }
        ensures spare { UsesSpare 0 (half_state half (both_of self.old)) (half_state half (both_of self.new)) }
        ensures names { SameNames (half_state half (both_of self.old)) (half_state half (both_of self.new)) }
        ensures content { IsTrue (both_of self.old).told → (d : List ℕ) → Quiet (half_state half (both_of self.old)) (half_state half (both_of self.new)) (slice half d (both_left self.old)) (slice half d (both_left self.new)) }
        ensures durable { OnOk result (IsTrue (both_of self.old).told → (d : List ℕ) → Only (half_state half (both_of self.old)).holds (half_state half (both_of self.new)) (slice half d (both_left self.new))) }
        ensures other_half { disk_of (other half) (both_of self.new) ≡ disk_of (other half) (both_of self.old) }
        ensures place { place_of self.new ≡ place_of self.old }
        ensures fails { IsErr result ↔ Fails half CallKind.Sync self.old }
        ensures counted { Counts half CallKind.Sync self.old self.new }
    {
        let fails = self.fails_disk(half, CallKind::Sync);
        self.tape.synced(half.number(), !fails);
        answer(fails)
    }

    fn emit(&mut self, piece: &[u8]) -> Result<(), Failed>
        requires { (half : Half) → HasSpare (length piece.now) (half_state half (both_of self.old)) }
        ensures failed { OnErr result (Rose (both_of self.old).line_faults (both_of self.new).line_faults) }
        ensures fine { OnOk result ((both_of self.new).line_faults ≡ (both_of self.old).line_faults) }
        ensures disk { (half : Half) → disk_of half (both_of self.new) ≡ disk_of half (both_of self.old) }
        ensures frame { (half : Half) → Frame (half_state half (both_of self.old)) (half_state half (both_of self.new)) }
        ensures spare { (half : Half) → UsesSpare (length piece.now) (half_state half (both_of self.old)) (half_state half (both_of self.new)) }
        ensures content { IsTrue (both_of self.old).told → (half : Half) (d : List ℕ) → Emits piece.now (half_state half (both_of self.old)) (half_state half (both_of self.new)) (slice half d (both_left self.old)) (slice half d (both_left self.new)) result }
        ensures parted { IsTrue (both_of self.old).told → (half : Half) → Parted half (both_of self.old).moment (both_left self.old) (both_left self.new) }
        ensures place { place_of self.new ≡ place_of self.old }
        ensures fails { IsErr result ↔ EmitFails self.old }
        ensures counted { CountsEmit self.old self.new }
    {
        let fails = self.fails_line();
        self.tape.emitted(piece, !fails);
        answer(fails)
    }

    ghost holds_now = { λ m told. now_to (OfBoth (tapes.disk_of 0 m.recording).bytes (tapes.disk_of 1 m.recording).bytes) (at_first m.recording.starts) m.recording.events (moment_of m.recording).sent ((has_bytes 0 m.recording.starts m.recording.events, has_bytes 1 m.recording.starts m.recording.events), refl) };

    ghost sent_now = { λ m c d out told left. sent_is (OfBoth c d) m.recording.starts m.recording.events out left };

    ghost earlier = { λ m t u c d out told le left. since_less (OfBoth c d) t u (at_first m.recording.starts) m.recording.events out le left };
}
