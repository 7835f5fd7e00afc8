//! The texts that a program reads, by name.
ghost use Rattle.std.specs.Prelude.{◌≡◌, ◌+◌, List, ℕ, IsTrue, IsSome, IfOk, OnOk, IsErrOf, IsSomeAnd, take};
ghost use Rattle.kd_device.specs.{Device.{Rose}, Room.{RoomState, text_of, SameRoom}};

use crate::error::DeviceError;
use std::alloc::Global;

/// Texts by name, as the files of a folder are. Where a room cannot tell its texts, its clauses on content say nothing.
/// The count of faults rises where a read failed, and only there.
pub trait Room {
    /// What is seen of it.
    ghost room: { Self → RoomState };

    /// The first `limit + 1` bytes of the text at most, so that a text longer than the limit shows as one.
    fn read(&mut self, alloc: Global, name: &Vec<u8>, limit: u64) -> Result<Vec<u8>, DeviceError>
        ensures value { IfOk result (λ text. IsTrue (room self.old).told → IsSomeAnd (text_of name.now.items (room self.old).texts) (λ whole. text.items ≡ take (limit + 1) whole)) }
        ensures failed { IsErrOf result DeviceError.Failed → Rose (room self.old).faults (room self.new).faults }
        ensures fine { OnOk result ((room self.new).faults ≡ (room self.old).faults) }
        ensures memory { IsErrOf result DeviceError.Memory → (room self.new).faults ≡ (room self.old).faults }
        ensures sure { IsTrue (room self.old).sure → IsSome (text_of name.now.items (room self.old).texts) → IsErrOf result DeviceError.Failed → ⊥ }
        ensures same { SameRoom (room self.old) (room self.new) };

    /// A room that is sure tells its texts.
    ghost sure_tells: { (r : Self) → IsTrue (room r).sure → IsTrue (room r).told };
}
