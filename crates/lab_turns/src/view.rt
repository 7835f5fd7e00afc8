//! What is seen of a turn: the task before and after it.
ghost use Rattle.std.specs.Prelude.{◌≡◌, IfOk};
ghost use Rattle.application_types.specs.Statements.{IsWithin};
ghost use Rattle.laws_of_states.specs.Keeping.{HasFacts};

use application_types::unit_types::{Action, Unit};
use kd_base::{Name, OutOfMemory, ProgName};
use kdcs_types::{Area, Code, Ending, ServiceId};
use monitor_core::{Core, Turned};
use open_transaction::OpenTransaction;
use std::alloc::Global;

/// A statement of a service: the TAC whose unit runs, and its number in the unit, from 1.
#[derive(Clone, Copy)]
pub struct At {
    pub tac: Name,
    pub place: u32,
    /// The unit of the TAC.
    pub unit: Option<ProgName>,
    /// Its line in the text of the units, counted from 1; none past the last statement.
    pub line: Option<u32>,
    /// Whether it is a call, which sets KCRCCC.
    pub calls: bool,
}

/// What is seen of a turn.
pub struct TurnView {
    pub task: u16,
    /// The service that the task held before the turn.
    pub before: Option<ServiceId>,
    /// The service that it holds after it.
    pub after: Option<ServiceId>,
    /// The statement that was next before the turn.
    pub at: Option<At>,
    /// False where a free task found no work, or a request waits.
    pub moved: bool,
    /// The code of the last call of the service, where its transaction is still open.
    pub code: Option<Code>,
    /// How the transaction ended, where it made a commit.
    pub ending: Option<Ending>,
    /// The areas that the service holds since this turn, in the order in which it asked for them.
    pub locked: Vec<Area>,
    /// The areas that it held before the turn, and holds no more.
    pub freed: Vec<Area>,
    /// The area for which the service waits after the turn, and who holds it.
    pub waits: Option<(Area, Option<ServiceId>)>,
}

impl Drop for TurnView {
    fn drop(self) {
        let TurnView {
            task,
            before,
            after,
            at,
            moved,
            code,
            ending,
            locked,
            freed,
            waits,
        } = self;
        let _ = task;
        let _ = before;
        let _ = after;
        let _ = at;
        let _ = moved;
        let _ = code;
        let _ = ending;
        let _ = locked;
        let _ = freed;
        let _ = waits;
    }
}

/// A task before its turn.
pub(crate) struct Before {
    task: u16,
    service: Option<ServiceId>,
    at: Option<At>,
    held: Vec<Area>,
}

impl Drop for Before {
    fn drop(self) {
        let Before {
            task,
            service,
            at,
            held,
        } = self;
        let _ = task;
        let _ = service;
        let _ = at;
        let _ = held;
    }
}

/// The service that a task holds, if it holds one. It takes no memory.
pub fn held_by(core: &Core, task: u16) -> Option<ServiceId>
    requires facts { HasFacts core.now.application core.now.state }
    requires task { IsWithin 1 core.now.application.generation.limits.tasks task }
{
    core.parts().scheduler.held_by(task)
}

fn transaction_of<'a>(core: &'a Core, id: Option<ServiceId>) -> Option<&'a OpenTransaction> {
    let id = id?;
    match core.parts().active.get(&id) {
        Some(transaction) => Some(&**transaction),
        None => None,
    }
}

// Whether the statement is a call, which sets KCRCCC.
fn is_call(action: &Action) -> bool {
    !matches!(
        action,
        Action::Move(_, _)
            | Action::Join(_, _, _)
            | Action::Add(_, _)
            | Action::Sub(_, _)
            | Action::Mul(_, _)
            | Action::Div(_, _)
            | Action::If(_, _, _, _)
            | Action::Jump(_)
            | Action::Pend(_, _)
    )
}

// The statement of a unit at a place.
fn statement_of(unit: &Unit, tac: Name, place: u32) -> At {
    let unit_name = Some(*unit.name());
    match unit.statement(place) {
        Some(statement) => At {
            tac,
            place,
            unit: unit_name,
            line: Some(statement.line),
            calls: is_call(&statement.action),
        },
        None => At {
            tac,
            place,
            unit: unit_name,
            line: None,
            calls: false,
        },
    }
}

// The next statement of a transaction.
fn at_of(core: &Core, transaction: Option<&OpenTransaction>) -> Option<At> {
    let transaction = transaction?;
    let tac = transaction.current;
    let place = transaction.run.place;
    match core.parts().units.unit_of(tac) {
        Some(unit) => Some(statement_of(unit, tac, place)),
        None => Some(At {
            tac,
            place,
            unit: None,
            line: None,
            calls: false,
        }),
    }
}

// The code of the last call of the transaction.
fn code_of(transaction: Option<&OpenTransaction>) -> Option<Code> {
    Some(transaction?.run.code)
}

// How the turn ended its transaction.
fn ending_of(did: &Turned) -> Option<Ending> {
    match &did.settled {
        Some(kept) => Some(kept.ending()),
        None => None,
    }
}

// The areas that the transaction holds.
fn areas_of(
    alloc: Global,
    transaction: Option<&OpenTransaction>,
) -> Result<Vec<Area>, OutOfMemory> {
    let mut areas = Vec::new(alloc);
    let Some(transaction) = transaction else {
        return Ok(areas);
    };
    for area in transaction.touched.as_slice() {
        areas.push(*area)?;
    }
    Ok(areas)
}

fn has(areas: &[Area], area: &Area) -> bool {
    for other in areas {
        if other == area {
            return true;
        }
    }
    false
}

// The areas of the first list that the second has not.
fn without(alloc: Global, areas: &[Area], others: &[Area]) -> Result<Vec<Area>, OutOfMemory> {
    let mut found = Vec::new(alloc);
    for area in areas {
        if !has(others, area) {
            found.push(*area)?;
        }
    }
    Ok(found)
}

// The area for which a service waits, and who holds it.
fn wait_of(core: &Core, id: Option<ServiceId>) -> Option<(Area, Option<ServiceId>)> {
    let locks = &core.parts().locks;
    let (area, _) = locks.wait_of(id?)?;
    Some((*area, locks.holder(area)))
}

impl Before {
    pub(crate) fn of(alloc: Global, core: &Core, task: u16) -> Result<Before, OutOfMemory>
        requires facts { HasFacts core.now.application core.now.state }
        requires task { IsWithin 1 core.now.application.generation.limits.tasks task }
        ensures { IfOk result (λ before. before.task ≡ task) }
    {
        let service = held_by(core, task);
        let transaction = transaction_of(core, service);
        Ok(Before {
            task,
            service,
            at: at_of(core, transaction),
            held: areas_of(alloc, transaction)?,
        })
    }

    /// What is seen of the turn that came to this core.
    pub(crate) fn view(
        &self,
        alloc: Global,
        core: &Core,
        did: &Turned,
    ) -> Result<TurnView, OutOfMemory>
        requires facts { HasFacts core.now.application core.now.state }
        requires task { IsWithin 1 core.now.application.generation.limits.tasks self.now.task }
    {
        let after = held_by(core, self.task);
        let worked = self.service.or(after);
        let transaction = transaction_of(core, worked);
        let holds = areas_of(alloc, transaction)?;
        Ok(TurnView {
            task: self.task,
            before: self.service,
            after,
            at: self.at,
            moved: did.moved,
            code: code_of(transaction),
            ending: ending_of(did),
            locked: without(alloc, &holds, &self.held)?,
            freed: without(alloc, &self.held, &holds)?,
            waits: wait_of(core, worked),
        })
    }
}
