//! One disk file and one output line, under one clock: what a power cut leaves of both is told by one relation.
ghost use Rattle.std.specs.Prelude.{◌≡◌, ◌≤◌, ◌+◌, ◌-◌, ◌++◌, ◌∷◌, [], List, ℕ, IsTrue, length, take, drop, min, IfOk, OnOk, OnErr, is_ok, not};
ghost use Rattle.kd_device.specs.Device.{State, Rose, Frame, SameDiskFaults, SameLineFaults, SameNames, SameSpare, UsesSpare, HasSpare, Reserved, Quiet, Writes, Emits, Only};

use kd_base::OutOfMemory;
use thiserror::Error;

/// A call of a device failed, and the count of faults that goes with it rose.
#[derive(Clone, Copy, Debug, PartialEq, Eq, Error)]
#[error("the device failed")]
pub struct Failed;

// What a call answers that fails, or does not.
pub(crate) fn answer(fails: bool) -> Result<(), Failed>
    ensures { is_ok result ≡ not fails }
{
    if fails { Err(Failed) } else { Ok(()) }
}

/// A disk file and an output line. Whoever implements it keeps the disk rules that its clauses state; where a device
/// cannot tell its content, as one over a real file, those clauses say nothing and only the counts are kept. A count of
/// faults rises where a call of its side failed, and only there; moments do not go back.
pub trait Device {
    /// What is seen of it.
    ghost state: { Self → State };

    /// A stop at some moment since that one may leave this file, with these bytes sent in all.
    ghost leaves: { Self → ℕ → List ℕ → List ℕ → Type 0 };

    /// The file of this name is the disk from now on; it is made where it is not there.
    fn attach(&mut self, name: &[u8]) -> Result<(), Failed>
        requires { HasSpare (length name.now) (state self.old) }
        ensures failed { OnErr result (Rose (state self.old).disk_faults (state self.new).disk_faults) }
        ensures fine { OnOk result (SameDiskFaults (state self.old) (state self.new)) }
        ensures line { SameLineFaults (state self.old) (state self.new) }
        ensures frame { Frame (state self.old) (state self.new) }
        ensures spare { UsesSpare (length name.now) (state self.old) (state self.new) }
        ensures names { IsTrue (state self.old).told → (state self.new).names ≡ (state self.old).names ++ name.now ∷ [] }
        ensures content { IsTrue (state self.old).told → Quiet (state self.old) (state self.new) (leaves self.old) (leaves self.new) };

    /// Afterwards so many attaches, writes, syncs and emits of so many bytes together, with no write past `end`, take
    /// no memory.
    fn reserve(&mut self, calls: u64, bytes: u64, end: u64) -> Result<(), OutOfMemory>
        ensures spare { OnOk result (Reserved calls bytes end (state self.new)) }
        ensures disk { SameDiskFaults (state self.old) (state self.new) }
        ensures line { SameLineFaults (state self.old) (state self.new) }
        ensures frame { Frame (state self.old) (state self.new) }
        ensures names { SameNames (state self.old) (state self.new) }
        ensures content { IsTrue (state self.old).told → Quiet (state self.old) (state self.new) (leaves self.old) (leaves self.new) };

    /// The length of the file in bytes.
    fn size(&mut self) -> Result<u64, Failed>
        ensures value { IfOk result (λ n. IsTrue (state self.old).told → n ≡ length (state self.old).holds) }
        ensures failed { OnErr result (Rose (state self.old).disk_faults (state self.new).disk_faults) }
        ensures fine { OnOk result (SameDiskFaults (state self.old) (state self.new)) }
        ensures line { SameLineFaults (state self.old) (state self.new) }
        ensures frame { Frame (state self.old) (state self.new) }
        ensures spare { SameSpare (state self.old) (state self.new) }
        ensures names { SameNames (state self.old) (state self.new) }
        ensures content { IsTrue (state self.old).told → Quiet (state self.old) (state self.new) (leaves self.old) (leaves self.new) };

    /// Fills the buffer from this place, as far as the file goes, and answers how many bytes that are.
    fn read_at(&mut self, at: u64, into: &mut [u8]) -> Result<usize, Failed>
        ensures count { IfOk result (λ n. IsTrue (state self.old).told → n ≡ min (length into.old) (length (state self.old).holds - at)) }
        ensures bytes { IfOk result (λ n. IsTrue (state self.old).told → into.new ≡ take n (drop at (state self.old).holds) ++ drop n into.old) }
        ensures bound { IfOk result (λ n. n ≤ length into.old) }
        ensures failed { OnErr result (Rose (state self.old).disk_faults (state self.new).disk_faults) }
        ensures fine { OnOk result (SameDiskFaults (state self.old) (state self.new)) }
        ensures line { SameLineFaults (state self.old) (state self.new) }
        ensures frame { Frame (state self.old) (state self.new) }
        ensures spare { SameSpare (state self.old) (state self.new) }
        ensures names { SameNames (state self.old) (state self.new) }
        ensures content { IsTrue (state self.old).told → Quiet (state self.old) (state self.new) (leaves self.old) (leaves self.new) };

    /// Writes over what is there and past the end. Until a sync, a stop may leave any bytes in the range.
    fn write_at(&mut self, at: u64, bytes: &[u8]) -> Result<(), Failed>
        requires spare { HasSpare (length bytes.now) (state self.old) }
        requires inside { at + length bytes.now ≤ (state self.old).spare_end }
        ensures failed { OnErr result (Rose (state self.old).disk_faults (state self.new).disk_faults) }
        ensures fine { OnOk result (SameDiskFaults (state self.old) (state self.new)) }
        ensures line { SameLineFaults (state self.old) (state self.new) }
        ensures frame { Frame (state self.old) (state self.new) }
        ensures spare { UsesSpare (length bytes.now) (state self.old) (state self.new) }
        ensures names { SameNames (state self.old) (state self.new) }
        ensures content { IsTrue (state self.old).told → Writes at bytes.now (state self.old) (state self.new) (leaves self.old) (leaves self.new) result };

    /// After it, a stop leaves what reads give.
    fn sync(&mut self) -> Result<(), Failed>
        requires { HasSpare 0 (state self.old) }
        ensures failed { OnErr result (Rose (state self.old).disk_faults (state self.new).disk_faults) }
        ensures fine { OnOk result (SameDiskFaults (state self.old) (state self.new)) }
        ensures line { SameLineFaults (state self.old) (state self.new) }
        ensures frame { Frame (state self.old) (state self.new) }
        ensures spare { UsesSpare 0 (state self.old) (state self.new) }
        ensures names { SameNames (state self.old) (state self.new) }
        ensures content { IsTrue (state self.old).told → Quiet (state self.old) (state self.new) (leaves self.old) (leaves self.new) }
        ensures durable { OnOk result (IsTrue (state self.old).told → Only (state self.old).holds (state self.new) (leaves self.new)) };

    /// Sends a piece. A stop within it, and an `Err`, sends a prefix.
    fn emit(&mut self, piece: &[u8]) -> Result<(), Failed>
        requires { HasSpare (length piece.now) (state self.old) }
        ensures failed { OnErr result (Rose (state self.old).line_faults (state self.new).line_faults) }
        ensures fine { OnOk result (SameLineFaults (state self.old) (state self.new)) }
        ensures disk { SameDiskFaults (state self.old) (state self.new) }
        ensures frame { Frame (state self.old) (state self.new) }
        ensures spare { UsesSpare (length piece.now) (state self.old) (state self.new) }
        ensures names { SameNames (state self.old) (state self.new) }
        ensures content { IsTrue (state self.old).told → Emits piece.now (state self.old) (state self.new) (leaves self.old) (leaves self.new) result };

    /// A stop now may leave what reads give.
    ghost holds_now: { (device : Self) → IsTrue (state device).told → leaves device (state device).moment (state device).holds (state device).sent };

    /// At a stop now just these bytes are sent.
    ghost sent_now: { (device : Self) (c out : List ℕ) → IsTrue (state device).told → leaves device (state device).moment c out → out ≡ (state device).sent };

    /// What a stop since a later moment may leave, a stop since an earlier one may leave too.
    ghost earlier: { (device : Self) (t u : ℕ) (c out : List ℕ) → IsTrue (state device).told → t ≤ u → leaves device u c out → leaves device t c out };
}
