//! Where lines are typed.
ghost use Rattle.std.specs.Prelude.{◌≡◌, None, IsTrue, IfOk, IsErrOf, MatchOption};
ghost use Rattle.kd_device.specs.Device.{Rose};
ghost use Rattle.live_run.specs.Typing.{ReadsNext, SameTyping, TypingState};

use device_acts::Keeper;
use kd_device::DeviceError;
use std::alloc::Global;

/// Lines that are typed, one after another. Who types may look at what the keeper has sent and stored before each line, so
/// each line hangs on what is seen of the keeper when it is read. Where an input cannot tell its lines, as one over a real
/// terminal, the clauses on them say nothing. The count of faults rises where a read failed, and only there.
pub trait Typing {
    /// What is seen of it.
    ghost typing: { Self → TypingState };

    /// The next line, without its end, `limit + 1` bytes of it at most, so that a longer line shows as one; `None` at the
    /// end of the input. The keeper is there to be seen, and no code can read it.
    fn line<K: Keeper>(
        &mut self,
        alloc: Global,
        keeper: &K,
        limit: u64,
    ) -> Result<Option<Vec<u8>>, DeviceError>
        ensures next { IfOk result (λ o. IsTrue (typing self.old).told → MatchOption o ((typing self.old).types (typing self.old).typed (K.state keeper.now) ≡ None) (λ line. ReadsNext limit (typing self.old) (typing self.new) (K.state keeper.now) line.items)) }
        ensures same { SameTyping (typing self.old) (typing self.new) }
        ensures failed { IsErrOf result DeviceError.Failed → Rose (typing self.old).faults (typing self.new).faults }
        ensures fine { (IsErrOf result DeviceError.Failed → ⊥) → (typing self.new).faults ≡ (typing self.old).faults };
}
