//! Two disk files and one output line, under one clock.
ghost use Rattle.std.specs.Prelude.{◌≡◌, ◌≤◌, ◌+◌, ◌-◌, ◌++◌, ◌∷◌, [], List, ℕ, IsTrue, length, take, drop, min, IfOk, OnOk, OnErr};
ghost use Rattle.kd_device.specs.Device.{Rose, Frame, SameDiskFaults, SameLineFaults, SameNames, SameSpare, UsesSpare, HasSpare, Reserved, Quiet, Writes, Emits, Only};
ghost use Rattle.kd_device.specs.{Twin.{Both, other, disk_of, half_state, slice}, Apart.{Parted}};

use crate::device::Failed;
use crate::half::Half;
use kd_base::OutOfMemory;

/// Two disk files and an output line. A call on a half does what the call of that name of a `Device` does, and the other
/// half stays; so its clauses are those of that call, and what they say of stops they say for each image that a stop
/// leaves of the other half. The spare numbers count the calls on both halves and on the line together.
pub trait Twin {
    /// What is seen of it.
    ghost both: { Self → Both };

    /// A stop at some moment since that one may leave these files, the first half's and the second's, with these bytes
    /// sent in all.
    ghost leaves: { Self → ℕ → List ℕ → List ℕ → List ℕ → Type 0 };

    /// Which twin it is, where it is one that is borrowed. No call changes that.
    ghost place: { Self → ℕ };

    /// The file of this name is the disk of that half from now on; it is made where it is not there.
    fn attach(&mut self, half: Half, name: &[u8]) -> Result<(), Failed>
        requires { HasSpare (length name.now) (half_state half (both self.old)) }
        ensures failed { OnErr result (Rose (half_state half (both self.old)).disk_faults (half_state half (both self.new)).disk_faults) }
        ensures fine { OnOk result (SameDiskFaults (half_state half (both self.old)) (half_state half (both self.new))) }
        ensures line { SameLineFaults (half_state half (both self.old)) (half_state half (both self.new)) }
        ensures frame { Frame (half_state half (both self.old)) (half_state half (both self.new)) }
        ensures spare { UsesSpare (length name.now) (half_state half (both self.old)) (half_state half (both self.new)) }
        ensures names { IsTrue (both self.old).told → (half_state half (both self.new)).names ≡ (half_state half (both self.old)).names ++ name.now ∷ [] }
        ensures content { IsTrue (both self.old).told → (d : List ℕ) → Quiet (half_state half (both self.old)) (half_state half (both self.new)) (slice half d (leaves self.old)) (slice half d (leaves self.new)) }
        ensures other_half { disk_of (other half) (both self.new) ≡ disk_of (other half) (both self.old) }
        ensures place { place self.new ≡ place self.old };

    /// Afterwards so many attaches, writes, syncs and emits of so many bytes together, with no write past `end`, take
    /// no memory.
    fn reserve(&mut self, calls: u64, bytes: u64, end: u64) -> Result<(), OutOfMemory>
        ensures spare { (half : Half) → OnOk result (Reserved calls bytes end (half_state half (both self.new))) }
        ensures disk { (half : Half) → disk_of half (both self.new) ≡ disk_of half (both self.old) }
        ensures line { (both self.new).line_faults ≡ (both self.old).line_faults }
        ensures frame { (half : Half) → Frame (half_state half (both self.old)) (half_state half (both self.new)) }
        ensures content { IsTrue (both self.old).told → (half : Half) (d : List ℕ) → Quiet (half_state half (both self.old)) (half_state half (both self.new)) (slice half d (leaves self.old)) (slice half d (leaves self.new)) }
        ensures place { place self.new ≡ place self.old };

    /// The length of the file in bytes.
    fn size(&mut self, half: Half) -> Result<u64, Failed>
        ensures value { IfOk result (λ n. IsTrue (both self.old).told → n ≡ length (half_state half (both self.old)).holds) }
        ensures failed { OnErr result (Rose (half_state half (both self.old)).disk_faults (half_state half (both self.new)).disk_faults) }
        ensures fine { OnOk result (SameDiskFaults (half_state half (both self.old)) (half_state half (both self.new))) }
        ensures line { SameLineFaults (half_state half (both self.old)) (half_state half (both self.new)) }
        ensures frame { Frame (half_state half (both self.old)) (half_state half (both self.new)) }
        ensures spare { SameSpare (half_state half (both self.old)) (half_state half (both self.new)) }
        ensures names { SameNames (half_state half (both self.old)) (half_state half (both self.new)) }
        ensures content { IsTrue (both self.old).told → (d : List ℕ) → Quiet (half_state half (both self.old)) (half_state half (both self.new)) (slice half d (leaves self.old)) (slice half d (leaves self.new)) }
        ensures other_half { disk_of (other half) (both self.new) ≡ disk_of (other half) (both self.old) }
        ensures place { place self.new ≡ place self.old };

    /// Fills the buffer from this place, as far as the file goes, and answers how many bytes that are.
    fn read_at(&mut self, half: Half, at: u64, into: &mut [u8]) -> Result<usize, Failed>
        ensures count { IfOk result (λ n. IsTrue (both self.old).told → n ≡ min (length into.old) (length (half_state half (both self.old)).holds - at)) }
        ensures bytes { IfOk result (λ n. IsTrue (both self.old).told → into.new ≡ take n (drop at (half_state half (both self.old)).holds) ++ drop n into.old) }
        ensures bound { IfOk result (λ n. n ≤ length into.old) }
        ensures failed { OnErr result (Rose (half_state half (both self.old)).disk_faults (half_state half (both self.new)).disk_faults) }
        ensures fine { OnOk result (SameDiskFaults (half_state half (both self.old)) (half_state half (both self.new))) }
        ensures line { SameLineFaults (half_state half (both self.old)) (half_state half (both self.new)) }
        ensures frame { Frame (half_state half (both self.old)) (half_state half (both self.new)) }
        ensures spare { SameSpare (half_state half (both self.old)) (half_state half (both self.new)) }
        ensures names { SameNames (half_state half (both self.old)) (half_state half (both self.new)) }
        ensures content { IsTrue (both self.old).told → (d : List ℕ) → Quiet (half_state half (both self.old)) (half_state half (both self.new)) (slice half d (leaves self.old)) (slice half d (leaves self.new)) }
        ensures other_half { disk_of (other half) (both self.new) ≡ disk_of (other half) (both self.old) }
        ensures place { place self.new ≡ place self.old };

    /// Writes over what is there and past the end. Until a sync of that half, a stop may leave any bytes in the range.
    fn write_at(&mut self, half: Half, at: u64, bytes: &[u8]) -> Result<(), Failed>
        requires spare { HasSpare (length bytes.now) (half_state half (both self.old)) }
        requires inside { at + length bytes.now ≤ (half_state half (both self.old)).spare_end }
        ensures failed { OnErr result (Rose (half_state half (both self.old)).disk_faults (half_state half (both self.new)).disk_faults) }
        ensures fine { OnOk result (SameDiskFaults (half_state half (both self.old)) (half_state half (both self.new))) }
        ensures line { SameLineFaults (half_state half (both self.old)) (half_state half (both self.new)) }
        ensures frame { Frame (half_state half (both self.old)) (half_state half (both self.new)) }
        ensures spare { UsesSpare (length bytes.now) (half_state half (both self.old)) (half_state half (both self.new)) }
        ensures names { SameNames (half_state half (both self.old)) (half_state half (both self.new)) }
        ensures content { IsTrue (both self.old).told → (d : List ℕ) → Writes at bytes.now (half_state half (both self.old)) (half_state half (both self.new)) (slice half d (leaves self.old)) (slice half d (leaves self.new)) result }
        ensures other_half { disk_of (other half) (both self.new) ≡ disk_of (other half) (both self.old) }
        ensures place { place self.new ≡ place self.old };

    /// After it, a stop leaves of that half what reads give.
    fn sync(&mut self, half: Half) -> Result<(), Failed>
        requires { HasSpare 0 (half_state half (both self.old)) }
        ensures failed { OnErr result (Rose (half_state half (both self.old)).disk_faults (half_state half (both self.new)).disk_faults) }
        ensures fine { OnOk result (SameDiskFaults (half_state half (both self.old)) (half_state half (both self.new))) }
        ensures line { SameLineFaults (half_state half (both self.old)) (half_state half (both self.new)) }
        ensures frame { Frame (half_state half (both self.old)) (half_state half (both self.new)) }
        ensures spare { UsesSpare 0 (half_state half (both self.old)) (half_state half (both self.new)) }
        ensures names { SameNames (half_state half (both self.old)) (half_state half (both self.new)) }
        ensures content { IsTrue (both self.old).told → (d : List ℕ) → Quiet (half_state half (both self.old)) (half_state half (both self.new)) (slice half d (leaves self.old)) (slice half d (leaves self.new)) }
        ensures durable { OnOk result (IsTrue (both self.old).told → (d : List ℕ) → Only (half_state half (both self.old)).holds (half_state half (both self.new)) (slice half d (leaves self.new))) }
        ensures other_half { disk_of (other half) (both self.new) ≡ disk_of (other half) (both self.old) }
        ensures place { place self.new ≡ place self.old };

    /// Sends a piece. A stop within it, and an `Err`, sends a prefix.
    fn emit(&mut self, piece: &[u8]) -> Result<(), Failed>
        requires { (half : Half) → HasSpare (length piece.now) (half_state half (both self.old)) }
        ensures failed { OnErr result (Rose (both self.old).line_faults (both self.new).line_faults) }
        ensures fine { OnOk result ((both self.new).line_faults ≡ (both self.old).line_faults) }
        ensures disk { (half : Half) → disk_of half (both self.new) ≡ disk_of half (both self.old) }
        ensures frame { (half : Half) → Frame (half_state half (both self.old)) (half_state half (both self.new)) }
        ensures spare { (half : Half) → UsesSpare (length piece.now) (half_state half (both self.old)) (half_state half (both self.new)) }
        ensures content { IsTrue (both self.old).told → (half : Half) (d : List ℕ) → Emits piece.now (half_state half (both self.old)) (half_state half (both self.new)) (slice half d (leaves self.old)) (slice half d (leaves self.new)) result }
        ensures parted { IsTrue (both self.old).told → (half : Half) → Parted half (both self.old).moment (leaves self.old) (leaves self.new) }
        ensures place { place self.new ≡ place self.old };

    /// A stop now may leave what reads give.
    ghost holds_now: { (twin : Self) → IsTrue (both twin).told → leaves twin (both twin).moment (both twin).first.holds (both twin).second.holds (both twin).sent };

    /// At a stop now just these bytes are sent.
    ghost sent_now: { (twin : Self) (c d out : List ℕ) → IsTrue (both twin).told → leaves twin (both twin).moment c d out → out ≡ (both twin).sent };

    /// What a stop since a later moment may leave, a stop since an earlier one may leave too.
    ghost earlier: { (twin : Self) (t u : ℕ) (c d out : List ℕ) → IsTrue (both twin).told → t ≤ u → leaves twin u c d out → leaves twin t c d out };
}
