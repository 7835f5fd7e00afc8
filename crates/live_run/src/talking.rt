//! The lines of a session, one after another.
ghost use Rattle.std.specs.Prelude.{◌≡◌, ◌⊎◌, None, List, ℕ, IsTrue, IfOk, OnOk, IsErrOf, MatchOption};
ghost use Rattle.kd_base.specs.Limits.{longest_text};
ghost use Rattle.kd_device.specs.Device.{Rose};
ghost use Rattle.device_acts.specs.Acting.{IsKeptBy};
ghost use Rattle.device_run.specs.Keeping.{IsRunningWith};
ghost use Rattle.live_run.specs.{Sessions.{auto_after}, Talking.{Talked}, Typing.{ReadsNext, SameTyping}};

use crate::counts::Counts;
use crate::error::LiveError;
use crate::performing::do_line;
use crate::typing::Typing;
use device_acts::Keeper;
use device_run::Reopens;
use kd_base::LONGEST_TEXT;
use kd_device::DeviceError;
use monitor_core::Core;
use std::alloc::Global;
use typed_lines::{Switch, Typed, typed_of};

// The next line, or why it was not read.
fn next_line<K: Keeper, I: Typing>(
    alloc: Global,
    keeper: &K,
    typing: &mut I,
) -> Result<Option<Vec<u8>>, LiveError>
    ensures next { IfOk result (λ o. IsTrue (I.typing typing.old).told → MatchOption o ((I.typing typing.old).types (I.typing typing.old).typed (K.state keeper.now) ≡ None) (λ line. ReadsNext longest_text (I.typing typing.old) (I.typing typing.new) (K.state keeper.now) line.items)) }
    ensures same { SameTyping (I.typing typing.old) (I.typing typing.new) }
    ensures input { IsErrOf result LiveError.Input → Rose (I.typing typing.old).faults (I.typing typing.new).faults }
    ensures heard { (IsErrOf result LiveError.Input → ⊥) → (I.typing typing.new).faults ≡ (I.typing typing.old).faults }
    ensures failed { IsErrOf result LiveError.Failed → ⊥ }
    ensures refused { IsErrOf result LiveError.NotKdcfile → ⊥ }
    ensures other { (stored : List ℕ) → IsErrOf result (LiveError.OtherGeneration stored) → ⊥ }
{
    match typing.line(alloc, keeper, LONGEST_TEXT as u64) {
        Ok(line) => Ok(line),
        Err(DeviceError::Failed) => Err(LiveError::Input),
        Err(DeviceError::Memory) => Err(LiveError::Memory),
    }
}

// Whether the tasks work after an input, after a line that asks for this.
fn auto_after(auto: bool, asks: Typed) -> bool
    ensures { result ≡ auto_after auto asks }
{
    match asks {
        Typed::Switch(Switch::Auto(on)) => on,
        Typed::Switch(Switch::Trace(_)) | Typed::Question(_) | Typed::Script => auto,
    }
}

/// Performs what is typed, line by line, to the end of the input, from a core whose durable tables the keeper has; its
/// files were made with this fingerprint. Each line is performed, and what it sends and stores is done, before the next is
/// read. A line has 16,777,216 bytes at most; a longer one is refused, as one of a script is. At first the tasks work by
/// themselves after an input. What is open at the end of the input is given up, and commits nothing.
pub fn live_with<K: Reopens, I: Typing>(
    alloc: Global,
    keeper: &mut K,
    typing: &mut I,
    core: Core,
    fingerprint: &[u8; 32],
) -> Result<(), LiveError>
    requires ready { K.ready keeper.old }
    requires running { IsRunningWith fingerprint.now core (K.identity keeper.old) (K.kept keeper.old) }
    requires kept { IsTrue (K.state keeper.old).told → IsKeptBy (K.file keeper.old) (K.state keeper.old) (K.leaves keeper.old) }
    ensures talked { Talked K.stands K.commit_most fingerprint.now core (I.typing typing.old) (K.identity keeper.new) (K.kept keeper.new) (K.file keeper.new) (K.state keeper.old) (K.state keeper.new) (K.leaves keeper.old) (K.leaves keeper.new) result }
    ensures ready { OnOk result (K.ready keeper.new) }
    ensures typing { SameTyping (I.typing typing.old) (I.typing typing.new) }
    ensures input { IsErrOf result LiveError.Input → Rose (I.typing typing.old).faults (I.typing typing.new).faults }
    ensures heard { (IsErrOf result LiveError.Input → ⊥) → (I.typing typing.new).faults ≡ (I.typing typing.old).faults }
    ensures fine { (IsErrOf result LiveError.Failed → ⊥) → K.fine (K.state keeper.old) (K.state keeper.new) }
    ensures failed { IsErrOf result LiveError.Failed → Rose (K.state keeper.old).disk_faults (K.state keeper.new).disk_faults ⊎ Rose (K.state keeper.old).line_faults (K.state keeper.new).line_faults }
    ensures refused { IsErrOf result LiveError.NotKdcfile → IsTrue (K.state keeper.old).told → ⊥ }
    ensures other { (stored : List ℕ) → IsErrOf result (LiveError.OtherGeneration stored) → IsTrue (K.state keeper.old).told → ⊥ }
    ensures place { K.place keeper.new ≡ K.place keeper.old }
{
    let mut core = core;
    let mut auto = true;
    let mut counts = Counts::none(alloc);
    for number in 0..u64::MAX {
        let Some(line) = next_line(alloc, keeper, typing)? else {
            return Ok(());
        };
        let asks = typed_of(&line);
        core = do_line(
            alloc,
            keeper,
            &mut counts,
            core,
            fingerprint,
            auto,
            number,
            asks,
            &line,
        )?;
        auto = auto_after(auto, asks);
    }
    Err(LiveError::Spent)
}
