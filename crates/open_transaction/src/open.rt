//! How a transaction opens, and goes on in a further unit run.
ghost use Rattle.std.specs.{Prelude.{◌≡◌, ◌+◌, ◌<◌, ◌^◌, ◌∷◌, [], ◌++◌, IfOk, IsTrue, OnOk, OnErr}, FinMap.{is_sorted}};
ghost use Rattle.abstract_monitor.specs.{Bytes.{bytes_cmp}, Endings.{joined, opened, is_asynchronous, fresh_run, kb_of, lssbs_of, handed_on}, Statements.{counted}};
ghost use Rattle.abstract_monitor.specs.Ready.{CanAnswer, IsReady};
ghost use Rattle.open_transaction.specs.Transactions.{transaction_of, accepted_of, followed_with, HasOrder};

use crate::async_queue::DraftJobs;
use crate::held::HeldAreas;
use application_types::generation::Generation;
use application_types::unit_types::Unit;
use kd_base::{Bytes, Name, OutOfMemory};
use kdcs_types::{Areas, Header, Notes, Parts, Reply, RunState, Service, ServiceId};
use service_parts::message_area::MessageArea;
use service_parts::service_runs::{budget, fresh_run, kb_of, restart, spaces};
use service_parts::storage_areas::Overlay;
use service_parts::unit_step::answered;
use std::alloc::Global;

/// All that a service has done since its last synchronisation point. Contracts see all fields.
pub struct OpenTransaction {
    /// Whose it is.
    pub id: ServiceId,
    /// The row of the service as the transaction began, if there was one.
    pub began: Option<Service>,
    /// The first TAC of the service: KCTACVG.
    pub first: Name,
    pub user: Name,
    pub lterm: Name,
    /// The terminal inputs that it accepted.
    pub inputs: Parts,
    /// The TAC whose unit runs: KCTACAL.
    pub current: Name,
    pub run: RunState,
    /// INIT is done in this unit run.
    pub inited: bool,
    /// The message parts to read, and those that were put.
    pub messages: MessageArea,
    /// The areas written, and the LSSBs.
    pub areas: Overlay,
    /// The jobs that it will make.
    pub drafts: DraftJobs,
    pub touched: HeldAreas,
    /// What its replay has to be told.
    pub notes: Notes,
    /// How many statements it has done.
    pub statements: u64,
}

impl Drop for OpenTransaction {
    fn drop(self) {
        let OpenTransaction {
            id,
            began,
            first,
            user,
            lterm,
            inputs,
            current,
            run,
            inited,
            messages,
            areas,
            drafts,
            touched,
            notes,
            statements,
        } = self;
        let _ = id;
        let _ = began;
        let _ = first;
        let _ = user;
        let _ = lterm;
        let _ = inputs;
        let _ = current;
        let _ = run;
        let _ = inited;
        let _ = messages;
        let _ = areas;
        let _ = drafts;
        let _ = touched;
        let _ = notes;
        let _ = statements;
    }
}

// The LSSBs of the row, or none.
fn lssbs_of(alloc: Global, began: &Option<Service>) -> Result<Areas, OutOfMemory>
    requires { HasOrder began.now }
    ensures lssbs { IfOk result (λ lssbs. lssbs ≡ lssbs_of began.now) }
    ensures ascending { IfOk result (λ lssbs. IsTrue (is_sorted bytes_cmp lssbs)) }
{
    match began {
        Some(row) => Ok(row.lssbs.clone()?),
        None => Ok(Areas::new(alloc)),
    }
}

// The inputs accepted: the message to read, if it is one.
fn accepted_of(alloc: Global, accepted: bool, handed: &Parts) -> Result<Parts, OutOfMemory>
    ensures { IfOk result (λ inputs. inputs ≡ accepted_of accepted handed.now) }
{
    if accepted {
        Ok(handed.clone()?)
    } else {
        Ok(Parts::new(alloc))
    }
}

/// What a transaction begins with, as far as it takes memory.
#[derive(Drop)]
struct Beginning {
    inputs: Parts,
    run: RunState,
    lssbs: Areas,
}

fn begin_with(
    alloc: Global,
    generation: &Generation,
    began: &Option<Service>,
    header: Header,
    handed: &Parts,
    accepted: bool,
) -> Result<Beginning, OutOfMemory>
    requires { HasOrder began.now }
    ensures inputs { IfOk result (λ b. b.inputs ≡ accepted_of accepted handed.now) }
    ensures run { IfOk result (λ b. b.run ≡ fresh_run generation.now (kb_of generation.now began.now) header) }
    ensures lssbs { IfOk result (λ b. b.lssbs ≡ lssbs_of began.now) }
    ensures ascending { IfOk result (λ b. IsTrue (is_sorted bytes_cmp b.lssbs)) }
{
    let inputs = accepted_of(alloc, accepted, handed)?;
    let lssbs = lssbs_of(alloc, began)?;
    let kb = kb_of(alloc, generation, began)?;
    let run = fresh_run(alloc, generation, kb, header)?;
    Ok(Beginning { inputs, run, lssbs })
}

impl OpenTransaction {
    /// A transaction of a service opens, from its row if it has one. Its unit run has the parts `handed` to read, which
    /// are an input that it accepted, or a message that was handed on or is a job's. It is in a box, since it is wide
    /// and has several owners one after another.
    #[tactic(auto, unfolding(abstract_monitor::specs::Endings::opened))]
    pub fn begin(
        alloc: Global,
        generation: &Generation,
        id: ServiceId,
        began: Option<Service>,
        header: Header,
        handed: Parts,
        accepted: bool,
    ) -> Result<Box<OpenTransaction>, OutOfMemory>
        requires { HasOrder began }
        ensures exact { IfOk result (λ transaction. transaction_of transaction.value ≡ opened generation.now began header handed (accepted_of accepted handed)) }
        ensures id { IfOk result (λ transaction. transaction.value.id ≡ id) }
        ensures nb { IfOk result (λ transaction. transaction.value.messages.nb ≡ generation.now.limits.nb) }
    {
        let beginning = begin_with(alloc, generation, &began, header, &handed, accepted)?;
        Ok(Box::new(
            alloc,
            OpenTransaction {
                id,
                began,
                first: header.tacvg,
                user: header.benid,
                lterm: header.logter,
                inputs: beginning.inputs,
                current: header.tacal,
                run: beginning.run,
                inited: false,
                messages: MessageArea::new(alloc, handed, generation.max().nb),
                areas: Overlay::new(alloc, beginning.lssbs),
                drafts: DraftJobs::new(alloc),
                touched: HeldAreas::new(alloc),
                notes: Notes::new(alloc),
                statements: 0,
            },
        )?)
    }

    /// The message that was put, its parts joined.
    pub fn message(&self, alloc: Global) -> Result<Bytes, OutOfMemory>
        ensures { IfOk result (λ message. message ≡ joined self.now.messages.parts) }
    {
        let mut message = Bytes::new(alloc);
        for part in self.messages.parts() {
            message.append(part.as_slice())?;
        }
        Ok(message)
    }

    /// A unit run of this TAC begins in the same transaction. With an input, which is accepted, that is the message to
    /// read, and the parts put are dropped. Without one the parts put are handed on; but an asynchronous service goes on
    /// reading its job's message. On an error nothing changes. Fewer than 2^64 - 1 statements were done.
    #[tactic(auto, unfolding(abstract_monitor::specs::Endings::followed, abstract_monitor::specs::Endings::followed_by_input))]
    pub fn follow(
        &mut self,
        alloc: Global,
        generation: &Generation,
        tac: Name,
        input: Option<Bytes>,
    ) -> Result<(), OutOfMemory>
        requires { self.old.statements + 1 < 2 ^ 64 }
        ensures ok { OnOk result (transaction_of self.new ≡ followed_with generation.now (is_asynchronous self.old.id) (transaction_of self.old) tac input) }
        ensures err { OnErr result (self.new ≡ self.old) }
        ensures id { self.new.id ≡ self.old.id }
        ensures nb { self.old.messages.nb ≡ generation.now.limits.nb → self.new.messages.nb ≡ generation.now.limits.nb }
    {
        let spab = spaces(alloc, generation.max().spab)?;
        match input {
            Some(input) => self.accept(alloc, generation.max().nb, input)?,
            None => self.hand_on(alloc, generation.max().nb),
        }
        self.current = tac;
        self.inited = false;
        self.statements += 1;
        restart(&mut self.run, budget(generation, tac), tac, spab);
        Ok(())
    }

    /// A call is answered: its statement is counted, and the unit run has code, length and content of the answer. Fewer
    /// than 2^64 - 1 statements were done. It takes no memory.
    pub fn count(&mut self, unit: &Unit, reply: &Reply)
        requires ready { IsReady unit.now self.old.run }
        requires can { CanAnswer unit.now self.old.run reply.now }
        requires statements { self.old.statements + 1 < 2 ^ 64 }
        ensures exact { transaction_of self.new ≡ counted unit.now (transaction_of self.old) reply.now }
        ensures id { self.new.id ≡ self.old.id }
        ensures nb { self.new.messages.nb ≡ self.old.messages.nb }
    {
        answered(unit, &mut self.run, reply);
        self.statements += 1;
    }

    // The input is accepted, and is the message to read.
    fn accept(&mut self, alloc: Global, nb: u32, input: Bytes) -> Result<(), OutOfMemory>
        ensures ok { OnOk result (self.new ≡ record self.old { inputs = self.old.inputs ++ input ∷ []; messages = record { unread = input ∷ []; parts = []; nb = nb } }) }
        ensures err { OnErr result (self.new ≡ self.old) }
    {
        let mut unread = Parts::new(alloc);
        unread.push(input.clone()?)?;
        self.inputs.push(input)?;
        self.messages = MessageArea::new(alloc, unread, nb);
        Ok(())
    }

    // The parts put are the message to read, but the message of a job stays to be read.
    fn hand_on(&mut self, alloc: Global, nb: u32)
        ensures exact { (transaction_of self.new) ≡ record (transaction_of self.old) { unread = handed_on (is_asynchronous self.old.id) (transaction_of self.old); parts = [] } }
        ensures id { self.new.id ≡ self.old.id }
        ensures nb { self.old.messages.nb ≡ nb → self.new.messages.nb ≡ nb }
    {
        match self.id {
            ServiceId::Asynchronous(_) => self.messages.clear(),
            ServiceId::Dialogue(_) => {
                let parts = self.messages.take();
                self.messages = MessageArea::new(alloc, parts, nb);
            }
        }
    }
}
