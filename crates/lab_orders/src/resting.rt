//! The tasks whose turns had no effect since the last turn with one.
ghost use Rattle.std.specs.Prelude.{◌≡◌, ◌-◌, ◌<◌, ◌≤◌, true, false, All, IfNone, IfOk, IfSome, length, get_or, replicate, slice_set};
ghost use Rattle.lab_orders.specs.Drawing.{IsAwake};

use kd_base::OutOfMemory;
use rand_core::Rng;
use rand_xoshiro::SplitMix64;
use std::alloc::Global;

/// Of each task, whether it rests.
#[derive(Drop)]
pub(crate) struct Resting {
    tasks: Vec<bool>,
}

impl Resting {
    /// None rests.
    pub(crate) fn none(alloc: Global, tasks: u16) -> Result<Resting, OutOfMemory>
        ensures { IfOk result (λ r. r.tasks.items ≡ replicate tasks false) }
    {
        let mut resting = Vec::new(alloc);
        for _task in 0..tasks {
            resting.push(false)?;
        }
        Ok(Resting { tasks: resting })
    }

    /// The first that does not rest, from a drawn one on, or else of all.
    pub(crate) fn draw(&self, numbers: &mut SplitMix64) -> Option<u16>
        requires { length self.now.tasks.items ≤ 65535 }
        ensures some { IfSome result (λ task. IsAwake self.now.tasks.items task) }
        ensures none { IfNone result (All (λ rests. rests ≡ true) self.now.tasks.items) }
    {
        let some = (self.tasks.len() as u64).max(1);
        let from = numbers.next_u64() % some;
        match self.first_from(from) {
            Some(task) => Some(task),
            None => self.first_from(0),
        }
    }

    fn first_from(&self, from: u64) -> Option<u16>
        requires { length self.now.tasks.items ≤ 65535 }
        ensures some { IfSome result (λ task. IsAwake self.now.tasks.items task) }
        ensures none { IfNone result (from ≡ 0 → All (λ rests. rests ≡ true) self.now.tasks.items) }
    {
        for (at, rests) in self.tasks.iter().enumerate() {
            if at as u64 >= from && !*rests {
                return Some(at as u16 + 1);
            }
        }
        None
    }

    /// Its turn had no effect.
    pub(crate) fn rest(&mut self, task: u16)
        requires { IsAwake self.old.tasks.items task }
        ensures { self.new.tasks.items ≡ slice_set self.old.tasks.items (task - 1) true }
    {
        self.tasks[task as usize - 1] = true;
    }
}
