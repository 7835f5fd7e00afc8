//! What is counted since a session began.

use application_types::generation::Generation;
use device_run::Watcher;
use kd_base::{Bytes, Name, OutOfMemory};
use kdcs_types::{Act, Code, Job, Note, ServiceId, Target};
use lab_turns::held_by;
use lab_turns::lab_printing::put_number;
use monitor_core::{Core, Turned};
use std::alloc::Global;

/// What was counted of one TAC.
#[derive(Clone, Copy)]
struct TacCounts {
    tac: Name,
    /// Requests for areas that its unit runs had refused with K04.
    late: u64,
    /// And with K05.
    deadlocked: u64,
    /// Its jobs that became dead letters, or were gone.
    dead: u64,
    /// How often these were delivered, together.
    deliveries: u64,
}

/// What is seen of a service in a task before its turn: how many notes its transaction has, and its job, with the TAC and
/// how often it was delivered, while the tables have it.
#[derive(Clone, Copy)]
struct Seen {
    service: ServiceId,
    notes: usize,
    job: Option<(u64, Name, u64)>,
}

/// What was counted since a session began.
pub(crate) struct Counts {
    commits: u64,
    dumps: u64,
    tacs: Vec<TacCounts>,
    seen: Option<Seen>,
}

impl Drop for Counts {
    fn drop(self) {
        let Counts {
            commits,
            dumps,
            tacs,
            seen,
        } = self;
        let _ = commits;
        let _ = dumps;
        let _ = tacs;
        let _ = seen;
    }
}

impl Counts {
    pub(crate) fn none(alloc: Global) -> Counts {
        Counts {
            commits: 0,
            dumps: 0,
            tacs: Vec::new(alloc),
            seen: None,
        }
    }

    /// Takes the memory in which each TAC is counted, unless it is there.
    pub(crate) fn prepare(
        &mut self,
        alloc: Global,
        generation: &Generation,
    ) -> Result<(), OutOfMemory> {
        if self.tacs.is_empty() {
            self.tacs = counts_of_none(alloc, generation)?;
        }
        Ok(())
    }

    /// So many commits more were made.
    pub(crate) fn add(&mut self, commits: u64) {
        self.commits = self.commits.saturating_add(commits);
    }

    fn of_tac(&mut self, tac: Name) -> Option<&mut TacCounts> {
        self.tacs.iter_mut().find(|counts| counts.tac == tac)
    }

    // A request was refused with this code.
    fn add_refusal(&mut self, tac: Name, code: Code) {
        if let Some(counts) = self.of_tac(tac) {
            if code == Code::K05 {
                counts.deadlocked = counts.deadlocked.saturating_add(1);
            } else {
                counts.late = counts.late.saturating_add(1);
            }
        }
    }

    // A job is not delivered again, after so many deliveries.
    fn add_dead(&mut self, tac: Name, deliveries: u64) {
        if let Some(counts) = self.of_tac(tac) {
            counts.dead = counts.dead.saturating_add(1);
            counts.deliveries = counts.deliveries.saturating_add(deliveries);
        }
    }
}

fn counts_of_none(alloc: Global, generation: &Generation) -> Result<Vec<TacCounts>, OutOfMemory> {
    let tacs = generation.tacs();
    let mut counts = Vec::new(alloc);
    for i in 0..tacs.len() {
        if let Some((name, _entry)) = tacs.get_index(i) {
            counts.push(TacCounts {
                tac: *name,
                late: 0,
                deadlocked: 0,
                dead: 0,
                deliveries: 0,
            })?;
        }
    }
    Ok(counts)
}

fn is_dump(act: &Act) -> bool {
    match act {
        Act::Emit(line) => line.as_slice().starts_with(b"DUMP "),
        Act::Commit(_) => false,
    }
}

// The TAC to which a job still goes, and how often it was delivered.
fn delivered(core: &Core, number: u64) -> Option<(Name, u64)> {
    let value = core.tables().job(number)?;
    match value.to {
        Target::Tac(tac) => Some((tac, u64::from(value.redelivered).saturating_add(1))),
        Target::Lterm(_) => None,
    }
}

fn job_of(core: &Core, service: &ServiceId) -> Option<(u64, Name, u64)> {
    match service {
        ServiceId::Asynchronous(number) => {
            let (tac, deliveries) = delivered(core, *number)?;
            Some((*number, tac, deliveries))
        }
        ServiceId::Dialogue(_) => None,
    }
}

fn notes_of(core: &Core, service: &ServiceId) -> usize {
    match core.parts().active.get(service) {
        Some(transaction) => transaction.notes.as_slice().len(),
        None => 0,
    }
}

// The TAC whose unit run had a request refused since, and the code.
fn refused_since(core: &Core, seen: &Seen) -> Option<(Name, Code)> {
    let transaction = core.parts().active.get(&seen.service)?;
    let notes = transaction.notes.as_slice();
    if notes.len() <= seen.notes {
        return None;
    }
    match notes.last() {
        Some(Note::Refused(_, code)) => Some((transaction.current, *code)),
        Some(Note::Released(_, _)) | None => None,
    }
}

// The TAC of the job that an abnormal end has made a dead letter, or gone, and how often it was delivered.
fn dead_since(core: &Core, seen: &Seen, dumps: u64) -> Option<(Name, u64)> {
    let (number, tac, deliveries) = seen.job?;
    if dumps > 0 && delivered(core, number).is_none() {
        Some((tac, deliveries))
    } else {
        None
    }
}

impl Watcher for Counts {
    fn before(&mut self, core: &Core, task: u16) {
        self.seen = match held_by(core, task) {
            Some(service) => Some(Seen {
                service,
                notes: notes_of(core, &service),
                job: job_of(core, &service),
            }),
            None => None,
        };
    }

    fn after(&mut self, core: &Core, _task: u16, did: &Turned) {
        let acts = did.acts.as_slice();
        let dumps = acts.iter().filter(|act| is_dump(act)).count() as u64;
        self.dumps = self.dumps.saturating_add(dumps);
        let (refused, dead) = match &self.seen {
            Some(seen) => (refused_since(core, seen), dead_since(core, seen, dumps)),
            None => (None, None),
        };
        if let Some((tac, code)) = refused {
            self.add_refusal(tac, code);
        }
        if let Some((tac, deliveries)) = dead {
            self.add_dead(tac, deliveries);
        }
    }
}

// How many jobs wait for each target.
fn waiting(alloc: Global, jobs: &[Job]) -> Result<Vec<(Target, u64)>, OutOfMemory> {
    let mut counts: Vec<(Target, u64)> = Vec::new(alloc);
    for job in jobs {
        let to = job.value.to;
        match counts.iter_mut().find(|count| count.0 == to) {
            Some(count) => count.1 = count.1.saturating_add(1),
            None => counts.push((to, 1))?,
        }
    }
    Ok(counts)
}

fn put_count(alloc: Global, out: &mut Bytes, word: &[u8], number: u64) -> Result<(), OutOfMemory> {
    out.append(word)?;
    put_number(alloc, out, number)?;
    out.push(b'\n')
}

fn put_named(
    alloc: Global,
    out: &mut Bytes,
    word: &[u8],
    name: Name,
    number: u64,
) -> Result<(), OutOfMemory> {
    out.append(word)?;
    out.append(name.as_slice())?;
    out.push(b' ')?;
    put_number(alloc, out, number)
}

// The pages of the pool that are used, and how many it has.
fn put_pages(alloc: Global, out: &mut Bytes, core: &Core) -> Result<(), OutOfMemory> {
    let parts = core.parts();
    out.append(b"PAGES ")?;
    put_number(alloc, out, parts.charge)?;
    out.push(b' ')?;
    put_number(alloc, out, u64::from(parts.generation.max().pgpool))?;
    out.push(b'\n')
}

fn put_waits(alloc: Global, out: &mut Bytes, counts: &[(Target, u64)]) -> Result<(), OutOfMemory> {
    for (to, count) in counts {
        match to {
            Target::Tac(tac) => put_named(alloc, out, b"JOBS T ", *tac, *count)?,
            Target::Lterm(lterm) => put_named(alloc, out, b"JOBS L ", *lterm, *count)?,
        }
        out.push(b'\n')?;
    }
    Ok(())
}

fn put_waiting(alloc: Global, out: &mut Bytes, jobs: &[Job]) -> Result<(), OutOfMemory> {
    let counts = waiting(alloc, jobs)?;
    put_waits(alloc, out, counts.as_slice())
}

fn put_dead(alloc: Global, out: &mut Bytes, counts: &TacCounts) -> Result<(), OutOfMemory> {
    if counts.dead > 0 {
        put_named(alloc, out, b"DEAD T ", counts.tac, counts.dead)?;
        out.append(b" DELIVERIES ")?;
        put_number(alloc, out, counts.deliveries)?;
        out.push(b'\n')?;
    }
    Ok(())
}

fn put_refused(
    alloc: Global,
    out: &mut Bytes,
    word: &[u8],
    tac: Name,
    requests: u64,
) -> Result<(), OutOfMemory> {
    if requests > 0 {
        put_named(alloc, out, word, tac, requests)?;
        out.push(b'\n')?;
    }
    Ok(())
}

fn put_tac(alloc: Global, out: &mut Bytes, counts: &TacCounts) -> Result<(), OutOfMemory> {
    put_dead(alloc, out, counts)?;
    put_refused(alloc, out, b"K04 T ", counts.tac, counts.late)?;
    put_refused(alloc, out, b"K05 T ", counts.tac, counts.deadlocked)
}

fn put_counts(
    alloc: Global,
    out: &mut Bytes,
    core: &Core,
    counts: &Counts,
) -> Result<(), OutOfMemory> {
    let tables = core.tables();
    put_pages(alloc, out, core)?;
    put_count(alloc, out, b"SERVICES ", tables.services().len() as u64)?;
    put_count(alloc, out, b"JOBS ", tables.jobs().len() as u64)?;
    put_waiting(alloc, out, tables.jobs())?;
    put_count(alloc, out, b"COMMITS ", counts.commits)?;
    put_count(alloc, out, b"DUMPS ", counts.dumps)?;
    for tac in counts.tacs.as_slice() {
        put_tac(alloc, out, tac)?;
    }
    Ok(())
}

/// What `COUNTS` sends: how many pages of the pool are used, and how many it has; how many services and jobs the tables
/// have, and how many jobs wait for each target; and since the session began how many commits were made and dumps were
/// sent, and by TAC how many jobs became dead letters or were gone, with their deliveries, and how many requests were
/// refused with K04 and K05.
pub(crate) fn count_lines(
    alloc: Global,
    core: &Core,
    counts: &Counts,
) -> Result<Bytes, OutOfMemory> {
    let mut out = Bytes::new(alloc);
    put_counts(alloc, &mut out, core, counts)?;
    Ok(out)
}
