//! What a call answers.
ghost use Rattle.std.specs.{Prelude.{◌≡◌, ◌≤◌, All, length}, Option.{option_copied}};
ghost use Rattle.abstract_monitor.specs.{Fields.{stored}, Ready.{CanAnswer, IsInside, IsReady}, Statement.{answered, next_target, read_into, target_of}};

use crate::unit_step::area::store;
use application_types::unit_types::{Action, Unit};
use kd_base::Bytes;
use kdcs_types::{Reply, RunState};

// The field that a call reads into.
fn target_of(action: &Action) -> Option<&Bytes>
    ensures { option_copied result ≡ target_of action.now }
{
    match action {
        Action::Mget(field)
        | Action::Fget(field)
        | Action::SgetGb(_, field)
        | Action::SgetKp(_, field)
        | Action::SgetRl(_, field)
        | Action::SgetUs(_, field)
        | Action::Gtda(_, field) => Some(field),
        _ => None,
    }
}

// The field that the next statement's call reads into.
fn next_target<'a>(unit: &'a Unit, run: &RunState) -> Option<&'a Bytes>
    ensures target { option_copied result ≡ next_target unit.now run.now }
    ensures few { length unit.now.statements ≤ 10000 }
{
    match unit.statement(run.place) {
        Some(statement) => target_of(&statement.action),
        None => None,
    }
}

// The content goes into the next statement's target, where there are both.
#[tactic(auto, unfolding(abstract_monitor::specs::Fields::stored))]
fn read_into(unit: &Unit, run: &mut RunState, content: &Option<Bytes>)
    requires { All (IsInside run.old) unit.now.fields }
    ensures read { run.new ≡ read_into unit.now run.old (next_target unit.now run.old) content.now }
    ensures place { run.new.place ≡ run.old.place }
    ensures count { run.new.count ≡ run.old.count }
    ensures few { length unit.now.statements ≤ 10000 }
{
    let Some(name) = next_target(unit, run) else {
        return;
    };
    let Some(content) = content else {
        return;
    };
    if let Some(field) = unit.field(name.as_slice()) {
        store(run, field, content.as_slice());
    }
}

/// Counts the call's statement, moves on, and stores what the call answered: its code, its length, and its content in
/// the target field, filled with spaces or cut. It takes no memory.
#[tactic(auto, unfolding(abstract_monitor::specs::Statement::answered))]
pub fn answered(unit: &Unit, run: &mut RunState, reply: &Reply)
    requires ready { IsReady unit.now run.old }
    requires can { CanAnswer unit.now run.old reply.now }
    ensures { run.new ≡ answered unit.now run.old reply.now }
{
    let _budget = run.budget; // for the proof
    read_into(unit, run, &reply.content);
    run.place += 1;
    run.count += 1;
    run.code = reply.code;
    run.length = reply.length;
}
