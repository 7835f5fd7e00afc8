//! How many calls of each kind were made on one side of a memory, how many of them failed, and which fail.
ghost use Rattle.std.specs.{Prelude.{◌≡◌, ◌↔◌, ◌⊎◌, IsTrue, if◌then◌else◌}, List.{Contains}};
ghost use Rattle.kd_device.specs.Count.{raised};
ghost use Rattle.kd_device.specs.declared.half.Half.TheVariants.{First, Second};
ghost use Rattle.kd_device.specs.Tally.{none, number_of, with_call, after_call, FailsNext, EmitFailsNext};

use crate::half::Half;
use crate::kind::{CallKind, raise};

/// The calls of one disk, or of the line, and the faults.
#[derive(Clone, Copy, PartialEq, Eq)]
pub struct Tally {
    pub attach: u64,
    pub size: u64,
    pub read: u64,
    pub write: u64,
    pub sync: u64,
    pub emit: u64,
    pub faults: u64,
}

fn count(made: &mut u64) -> u64
    ensures number { result ≡ raised made.old }
    ensures counted { made.new ≡ raised made.old }
{
    *made = raise(*made);
    *made
}

fn has_call(failing: &[(Half, CallKind, u64)], half: Half, kind: CallKind, number: u64) -> bool
    ensures { IsTrue result ↔ Contains failing.now (half, kind, number) }
{
    failing.contains(&(half, kind, number))
}

// The half beside an emit is not looked at.
fn has_emit(failing: &[(Half, CallKind, u64)], number: u64) -> bool
    ensures fails { IsTrue result → Contains failing.now (First, CallKind.Emit, number) ⊎ Contains failing.now (Second, CallKind.Emit, number) }
    ensures only { Contains failing.now (First, CallKind.Emit, number) ⊎ Contains failing.now (Second, CallKind.Emit, number) → IsTrue result }
{
    if has_call(failing, Half::First, CallKind::Emit, number) {
        return true;
    }
    has_call(failing, Half::Second, CallKind::Emit, number)
}

impl Tally {
    /// No call.
    pub fn none() -> Tally
        ensures { result ≡ none }
    {
        Tally {
            attach: 0,
            size: 0,
            read: 0,
            write: 0,
            sync: 0,
            emit: 0,
            faults: 0,
        }
    }

    /// Counts a call of this kind, and answers its number.
    fn next(&mut self, kind: CallKind) -> u64
        ensures number { result ≡ raised (number_of kind self.old) }
        ensures counted { self.new ≡ with_call kind self.old }
    {
        match kind {
            CallKind::Attach => count(&mut self.attach),
            CallKind::Size => count(&mut self.size),
            CallKind::Read => count(&mut self.read),
            CallKind::Write => count(&mut self.write),
            CallKind::Sync => count(&mut self.sync),
            CallKind::Emit => count(&mut self.emit),
        }
    }

    fn fault_if(&mut self, fails: bool)
        ensures { self.new ≡ (if fails then record self.old { faults = raised self.old.faults } else self.old) }
    {
        if fails {
            count(&mut self.faults);
        }
    }

    /// Counts a call of the disk of this half, and answers whether it fails.
    pub fn fails(&mut self, failing: &[(Half, CallKind, u64)], half: Half, kind: CallKind) -> bool
        ensures fails { IsTrue result ↔ FailsNext failing.now half kind self.old }
        ensures counted { self.new ≡ after_call kind result self.old }
    {
        let number = self.next(kind);
        let fails = has_call(failing, half, kind, number);
        self.fault_if(fails);
        fails
    }

    /// Counts an emit, and answers whether it fails.
    pub fn fails_emit(&mut self, failing: &[(Half, CallKind, u64)]) -> bool
        ensures fails { IsTrue result → EmitFailsNext failing.now self.old }
        ensures only { EmitFailsNext failing.now self.old → IsTrue result }
        ensures counted { self.new ≡ after_call CallKind.Emit result self.old }
    {
        let number = self.next(CallKind::Emit);
        let fails = has_emit(failing, number);
        self.fault_if(fails);
        fails
    }
}
