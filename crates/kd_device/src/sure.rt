//! A device in memory of which no call fails.
ghost use Rattle.std.specs.Prelude.{◌≡◌, [], ◌∷◌, IsTrue, length, IfOk, refl};
ghost use Rattle.kd_device.specs.{Device.{Only}, History.{at_first}, HistoryLaws.{now_to, has_bytes, sent_is, since_less}};
ghost use Rattle.kd_device.specs.{Recording.{blank, disk_of, moment_of}, Memory.{OfOne}, Sure.{sure_state, sure_leaves}};

use crate::buffer::read_part;
use crate::device::{Device, Failed};
use crate::tape::Tape;
use kd_base::{Bytes, OutOfMemory};
use std::alloc::Global;
use std::marker::Model;

/// A disk file and an output line in memory, a tape of one disk, whose counts of faults are 0: so no call answers that it
/// failed.
#[derive(Drop)]
pub struct SureDevice {
    tape: Tape,
}

impl Model for SureDevice {
    ghost use Rattle.std.specs.Prelude.{◌≡◌, length};
    ghost use Rattle.kd_device.specs.Recording.{Recording};

    ghost Value = { Recording };

    ghost view = { λ m. m.tape };

    ghost invariant = { λ m. length m.tape.starts ≡ 1 };
}

impl SureDevice {
    /// A device with this file, all of it on the disk.
    pub fn new(alloc: Global, start: Bytes) -> Result<SureDevice, OutOfMemory>
        ensures value { IfOk result (λ m. m ≡ blank (start ∷ [])) }
        ensures told { IfOk result (λ m. IsTrue (sure_state m).told) }
        ensures holds { IfOk result (λ m. (sure_state m).holds ≡ start) }
        ensures sent { IfOk result (λ m. (sure_state m).sent ≡ []) }
        ensures only { IfOk result (λ m. Only start (sure_state m) (sure_leaves m)) }
    {
        let mut tape = Tape::new(alloc);
        tape.add(alloc, start)?;
        Ok(SureDevice { tape })
    }

    /// The bytes of the disk, as reads give them.
    pub fn holds(&self) -> &[u8]
        ensures { result.now ≡ (sure_state self.now).holds }
    {
        self.tape.holds(0)
    }

    /// All that was emitted.
    pub fn sent(&self) -> &[u8]
        ensures { result.now ≡ (sure_state self.now).sent }
    {
        self.tape.sent()
    }

    /// How many writes, syncs and emits there were.
    pub fn calls(&self) -> u64
        ensures { result ≡ length self.now.events }
    {
        self.tape.calls()
    }
}

impl Device for SureDevice {
    ghost state = { sure_state };

    ghost leaves = { sure_leaves };

    fn attach(&mut self, name: &[u8]) -> Result<(), Failed> {
        self.tape.named(0, name);
        Ok(())
    }

    fn reserve(&mut self, calls: u64, bytes: u64, end: u64) -> Result<(), OutOfMemory> {
        self.tape.reserve(calls, bytes, end)
    }

    fn size(&mut self) -> Result<u64, Failed> {
        Ok(self.holds().len() as u64)
    }

    fn read_at(&mut self, at: u64, into: &mut [u8]) -> Result<usize, Failed> {
        Ok(read_part(self.holds(), at, into))
    }

    fn write_at(&mut self, at: u64, bytes: &[u8]) -> Result<(), Failed> {
        self.tape.wrote(0, at as usize, bytes, true);
        Ok(())
    }

    fn sync(&mut self) -> Result<(), Failed> {
        self.tape.synced(0, true);
        Ok(())
    }

    fn emit(&mut self, piece: &[u8]) -> Result<(), Failed> {
        self.tape.emitted(piece, true);
        Ok(())
    }

    ghost holds_now = { λ m told. now_to (OfOne (disk_of 0 m).bytes) (at_first m.starts) m.events (moment_of m).sent (has_bytes 0 m.starts m.events, refl) };

    ghost sent_now = { λ m c out told left. sent_is (OfOne c) m.starts m.events out left };

    ghost earlier = { λ m t u c out told le left. since_less (OfOne c) t u (at_first m.starts) m.events out le left };
}
