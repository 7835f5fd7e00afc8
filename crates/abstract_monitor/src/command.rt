//! The commands of a script.

use kd_base::{Bytes, Name};

/// A command of a script. PTERMs and tasks are those of the generation.
#[derive(Drop)]
pub enum Command {
    /// `IN`: an input at this PTERM.
    Input(Name, Bytes),
    /// `TICK`: so many ticks, from 0 to 999,999,999,999, are added to the clock.
    Tick(u64),
    /// `RUN`: at most so many turns, of the tasks in rotation; from 0 to 1,000,000.
    Run(u64),
    /// `TURN`: a turn of this task, from 1.
    Turn(u16),
    /// `DROP`: the connection of this PTERM is lost.
    Drop(Name),
    /// `PRINT`: the printer at this PTERM takes its next message.
    Print(Name),
    /// `PRINT .. LAST`: the printer prints its last message again.
    PrintLast(Name),
    /// `RESTART`: the monitor ends abnormally and starts warm.
    Restart,
}
