//! A turn of a walk, and what else can be in its place.
ghost use Rattle.std.specs.Prelude.{◌≡◌, ◌⊎◌, ◌+◌, ◌<◌, ◌≤◌, true, false, [], length, All, IfOk};
ghost use Rattle.lab_walks.specs.Frames.{AdvancedOrNot, turn_in, turns_in};

use kd_base::{OutOfMemory, Sequence};
use std::alloc::Global;

/// The turns of all RUNs of a script that have an effect, one after another, each the number of its task. 0 ends a RUN that
/// is over before it had so many.
pub type Turns = Sequence<u16>;

/// A turn of a walk.
#[derive(Drop)]
pub struct Frame {
    /// What can be here, in the order in which it is tried: tasks, and 0, which ends the RUN.
    pub choices: Turns,
    /// Which of them is taken.
    pub at: usize,
    /// How many tasks have turns without effect here.
    pub idle: u16,
}

impl Frame {
    /// The task, or 0.
    pub fn turn(&self) -> u16
        requires { self.now.at < length self.now.choices }
        ensures { result ≡ turn_in self.now }
    {
        self.choices.as_slice()[self.at]
    }
}

/// The turns of these frames.
pub fn turns_of(alloc: Global, frames: &[Frame]) -> Result<Turns, OutOfMemory>
    requires { All (λ f. f.at < length f.choices) frames.now }
    ensures { IfOk result (λ turns. turns ≡ turns_in frames.now) }
{
    let mut turns = Turns::new(alloc);
    for frame in frames {
        turns.push(frame.turn())?;
    }
    Ok(turns)
}

/// Whether 0 can be next in a RUN that has so many turns left behind the next one: no turn has an effect, or all are spent with
/// as many without effect as there may have been.
pub fn ends(choices: &[u16], left: u64, idle: u64) -> bool
    ensures yes { result ≡ true → (choices.now ≡ []) ⊎ (left + 1 ≤ idle) }
    ensures no { result ≡ false → (choices.now ≡ [] → ⊥) × (idle ≤ left) }
{
    choices.is_empty() || left < idle
}

/// The next choice at the last place where there is one. False where there is none.
pub fn advance(frames: &mut Vec<Frame>) -> Result<bool, OutOfMemory>
    ensures { IfOk result (λ more. AdvancedOrNot frames.old.items frames.new.items more) }
{
    while let Some(frame) = frames.pop() {
        if frame.at < frame.choices.len().saturating_sub(1) {
            frames.push(Frame {
                at: frame.at + 1,
                ..frame
            })?;
            return Ok(true);
        }
    }
    Ok(false)
}
