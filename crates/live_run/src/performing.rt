//! One line is performed.
ghost use Rattle.std.specs.Prelude.{◌≡◌, ◌≤◌, ◌<◌, ◌+◌, ◌∷◌, ◌^◌, [], IsTrue, OnOk, sum_by};
ghost use Rattle.kdcs_types.specs.declared.act.Act.TheVariants.{Emit};
ghost use Rattle.laws_of_states.specs.Keeping.{IsScriptOf};
ghost use Rattle.abstract_monitor.specs.{Commands.{acts_of, state_after}, Trace.{history}};
ghost use Rattle.monitor_core.specs.CoreSteps.{turns_of};
ghost use Rattle.device_acts.specs.Acting.{IsKeptBy};
ghost use Rattle.device_run.specs.Keeping.{IsRunningWith};
ghost use Rattle.typed_lines.specs.{Commands.{commands_in, refused_line}, Typing.{typed_of}};
ghost use Rattle.live_run.specs.{Performing.{RestartsFirst, TookActs, TookAnswer, TookLine, session_at}, Sessions.{acts_said, acts_set, commands_said, state_said}};

use crate::answering::answer_of;
use crate::counts::Counts;
use crate::error::LiveError;
use abstract_monitor::Command;
use device_run::{Reopens, run_on};
use monitor_core::Core;
use script_read::ScriptFault;
use std::alloc::Global;
use typed_lines::{Question, Switch, Typed, commands_typed, refused_line};

/// How many turns and commands a monitor does at most.
const LAST_STEP: u64 = 1_000_000_000_000_000_000;

// How many turns and commands a command makes at most.
fn turns_of(command: &Command) -> u64
    ensures { result ≡ turns_of command.now }
{
    match command {
        Command::Run(turns) => *turns,
        Command::Input(_, _)
        | Command::Tick(_)
        | Command::Turn(_)
        | Command::Drop(_)
        | Command::Print(_)
        | Command::PrintLast(_)
        | Command::Restart => 1,
    }
}

// Whether these commands may be done after so many turns and commands.
fn may_do(steps: u64, commands: &[Command]) -> bool
    ensures { IsTrue result → steps + sum_by turns_of commands.now ≤ 10 ^ 18 }
{
    if steps > LAST_STEP {
        return false;
    }
    let mut left = LAST_STEP - steps;
    for command in commands {
        let turns = turns_of(command);
        if turns > left {
            return false;
        }
        left -= turns;
    }
    true
}

// A text is sent, and the core stays as it is. Contracts alone speak of the fingerprint.
fn say<K: Reopens>(
    keeper: &mut K,
    core: Core,
    _fingerprint: &[u8; 32],
    text: &[u8],
) -> Result<Core, LiveError>
    requires ready { K.ready keeper.old }
    requires running { IsRunningWith _fingerprint.now core (K.identity keeper.old) (K.kept keeper.old) }
    requires kept { IsTrue (K.state keeper.old).told → IsKeptBy (K.file keeper.old) (K.state keeper.old) (K.leaves keeper.old) }
    ensures ready { OnOk result (K.ready keeper.new) }
    ensures took { TookActs K.stands K.commit_most K.fine _fingerprint.now core (Emit text.now ∷ []) core.state (K.identity keeper.new) (K.kept keeper.new) (K.file keeper.new) (K.state keeper.old) (K.state keeper.new) (K.leaves keeper.old) (K.leaves keeper.new) result }
    ensures place { K.place keeper.new ≡ K.place keeper.old }
{
    keeper.say(text)?;
    Ok(core)
}

// Commands are performed, each act before the next.
fn perform<K: Reopens>(
    alloc: Global,
    keeper: &mut K,
    counts: &mut Counts,
    core: Core,
    fingerprint: &[u8; 32],
    commands: &[Command],
) -> Result<Core, LiveError>
    requires ready { K.ready keeper.old }
    requires running { IsRunningWith fingerprint.now core (K.identity keeper.old) (K.kept keeper.old) }
    requires kept { IsTrue (K.state keeper.old).told → IsKeptBy (K.file keeper.old) (K.state keeper.old) (K.leaves keeper.old) }
    requires names { IsScriptOf core.application commands.now }
    ensures ready { OnOk result (K.ready keeper.new) }
    ensures took { TookActs K.stands K.commit_most K.fine fingerprint.now core (acts_of (history core.application core.state commands.now)) (state_after core.state (history core.application core.state commands.now)) (K.identity keeper.new) (K.kept keeper.new) (K.file keeper.new) (K.state keeper.old) (K.state keeper.new) (K.leaves keeper.old) (K.leaves keeper.new) result }
    ensures restart { RestartsFirst commands.now (K.state keeper.old) (K.state keeper.new) result }
    ensures place { K.place keeper.new ≡ K.place keeper.old }
{
    if !may_do(core.parts().steps, commands) {
        return Err(LiveError::Spent);
    }
    counts.prepare(alloc, &core.parts().generation)?;
    let mut done = 0;
    let (next, commits) = run_on(
        alloc,
        keeper,
        counts,
        core,
        fingerprint,
        commands,
        &mut done,
    )?;
    counts.add(commits);
    Ok(next)
}

// A line is refused, after so many.
fn refuse<K: Reopens>(
    alloc: Global,
    keeper: &mut K,
    core: Core,
    fingerprint: &[u8; 32],
    number: u64,
    fault: ScriptFault,
) -> Result<Core, LiveError>
    requires ready { K.ready keeper.old }
    requires running { IsRunningWith fingerprint.now core (K.identity keeper.old) (K.kept keeper.old) }
    requires kept { IsTrue (K.state keeper.old).told → IsKeptBy (K.file keeper.old) (K.state keeper.old) (K.leaves keeper.old) }
    requires number { number + 1 < 2 ^ 64 }
    ensures ready { OnOk result (K.ready keeper.new) }
    ensures took { TookActs K.stands K.commit_most K.fine fingerprint.now core (Emit (refused_line (number + 1) fault) ∷ []) core.state (K.identity keeper.new) (K.kept keeper.new) (K.file keeper.new) (K.state keeper.old) (K.state keeper.new) (K.leaves keeper.old) (K.leaves keeper.new) result }
    ensures place { K.place keeper.new ≡ K.place keeper.old }
{
    let text = refused_line(alloc, number + 1, fault)?;
    say(keeper, core, fingerprint, text.as_slice())
}

// A line of a script: its commands are performed, or the line of its refusal is sent.
fn do_script_line<K: Reopens>(
    alloc: Global,
    keeper: &mut K,
    counts: &mut Counts,
    core: Core,
    fingerprint: &[u8; 32],
    auto: bool,
    number: u64,
    line: &[u8],
) -> Result<Core, LiveError>
    requires ready { K.ready keeper.old }
    requires running { IsRunningWith fingerprint.now core (K.identity keeper.old) (K.kept keeper.old) }
    requires kept { IsTrue (K.state keeper.old).told → IsKeptBy (K.file keeper.old) (K.state keeper.old) (K.leaves keeper.old) }
    requires number { number + 1 < 2 ^ 64 }
    ensures ready { OnOk result (K.ready keeper.new) }
    ensures took { TookActs K.stands K.commit_most K.fine fingerprint.now core (acts_said core.application (session_at core auto number) (commands_in core.application.generation auto line.now)) (state_said core.application (session_at core auto number) (commands_in core.application.generation auto line.now)) (K.identity keeper.new) (K.kept keeper.new) (K.file keeper.new) (K.state keeper.old) (K.state keeper.new) (K.leaves keeper.old) (K.leaves keeper.new) result }
    ensures restart { RestartsFirst (commands_said (commands_in core.application.generation auto line.now)) (K.state keeper.old) (K.state keeper.new) result }
    ensures place { K.place keeper.new ≡ K.place keeper.old }
{
    match commands_typed(alloc, &core.parts().generation, auto, line) {
        Ok(commands) => perform(alloc, keeper, counts, core, fingerprint, &commands),
        Err(ScriptFault::Memory) => Err(LiveError::Memory),
        Err(fault) => refuse(alloc, keeper, core, fingerprint, number, fault),
    }
}

// A question is answered.
fn answer<K: Reopens>(
    alloc: Global,
    keeper: &mut K,
    counts: &Counts,
    core: Core,
    fingerprint: &[u8; 32],
    question: Question,
    line: &[u8],
) -> Result<Core, LiveError>
    requires ready { K.ready keeper.old }
    requires running { IsRunningWith fingerprint.now core (K.identity keeper.old) (K.kept keeper.old) }
    requires kept { IsTrue (K.state keeper.old).told → IsKeptBy (K.file keeper.old) (K.state keeper.old) (K.leaves keeper.old) }
    ensures ready { OnOk result (K.ready keeper.new) }
    ensures took { TookAnswer K.stands K.commit_most K.fine fingerprint.now core question line.now (K.identity keeper.new) (K.kept keeper.new) (K.file keeper.new) (K.state keeper.old) (K.state keeper.new) (K.leaves keeper.old) (K.leaves keeper.new) result }
    ensures place { K.place keeper.new ≡ K.place keeper.old }
{
    let text = answer_of(alloc, &core, counts, question, line)?;
    say(keeper, core, fingerprint, text.as_slice())
}

// A switch: AUTO and MANUAL do nothing now, and TRACE and QUIET are refused.
fn set<K: Reopens>(
    alloc: Global,
    keeper: &mut K,
    core: Core,
    fingerprint: &[u8; 32],
    number: u64,
    switch: Switch,
) -> Result<Core, LiveError>
    requires ready { K.ready keeper.old }
    requires running { IsRunningWith fingerprint.now core (K.identity keeper.old) (K.kept keeper.old) }
    requires kept { IsTrue (K.state keeper.old).told → IsKeptBy (K.file keeper.old) (K.state keeper.old) (K.leaves keeper.old) }
    requires number { number + 1 < 2 ^ 64 }
    ensures ready { OnOk result (K.ready keeper.new) }
    ensures took { TookActs K.stands K.commit_most K.fine fingerprint.now core (acts_set number switch) core.state (K.identity keeper.new) (K.kept keeper.new) (K.file keeper.new) (K.state keeper.old) (K.state keeper.new) (K.leaves keeper.old) (K.leaves keeper.new) result }
    ensures place { K.place keeper.new ≡ K.place keeper.old }
{
    match switch {
        Switch::Auto(_) => Ok(core),
        Switch::Trace(_) => {
            let fault = ScriptFault::BadLine(1);
            refuse(alloc, keeper, core, fingerprint, number, fault)
        }
    }
}

/// A line, which asks for this, after so many. What it sends and stores is done before the answer.
pub(crate) fn do_line<K: Reopens>(
    alloc: Global,
    keeper: &mut K,
    counts: &mut Counts,
    core: Core,
    fingerprint: &[u8; 32],
    auto: bool,
    number: u64,
    asks: Typed,
    line: &[u8],
) -> Result<Core, LiveError>
    requires ready { K.ready keeper.old }
    requires running { IsRunningWith fingerprint.now core (K.identity keeper.old) (K.kept keeper.old) }
    requires kept { IsTrue (K.state keeper.old).told → IsKeptBy (K.file keeper.old) (K.state keeper.old) (K.leaves keeper.old) }
    requires number { number + 1 < 2 ^ 64 }
    requires asks { asks ≡ typed_of line.now }
    ensures ready { OnOk result (K.ready keeper.new) }
    ensures took { TookLine K.stands K.commit_most K.fine fingerprint.now core auto number line.now (K.identity keeper.new) (K.kept keeper.new) (K.file keeper.new) (K.state keeper.old) (K.state keeper.new) (K.leaves keeper.old) (K.leaves keeper.new) result }
    ensures place { K.place keeper.new ≡ K.place keeper.old }
{
    match asks {
        Typed::Question(question) => {
            answer(alloc, keeper, counts, core, fingerprint, question, line)
        }
        Typed::Switch(switch) => set(alloc, keeper, core, fingerprint, number, switch),
        Typed::Script => {
            do_script_line(alloc, keeper, counts, core, fingerprint, auto, number, line)
        }
    }
}
