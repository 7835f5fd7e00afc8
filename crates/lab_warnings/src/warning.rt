//! What is accepted and likely wrong.

/// What is accepted and likely wrong. Behind each its details, as they are printed after the name.
#[derive(Clone, Copy)]
pub enum Warning {
    /// An operand that would restrict access and is kept nowhere: it, and what restricts access.
    AccessNotKept,
    /// An operand that is kept nowhere: its key, or its value where it has none.
    NotKept,
    /// The same, where a key of the statement is nearly the same: the key, and that key.
    NearOperand,
    /// A PTERM without LTERM, which is passed over: its name, and the operand that it lacks.
    PassedPterm,
    /// An LTERM that no PTERM works as: its name.
    NoPterm,
    /// A program that no TAC runs: its name.
    UnusedProgram,
    /// A key set that no user and no LTERM has: its name.
    UnusedKset,
    /// A TAC whose code no key set has, so that nobody starts it: its name and LOCK.
    LockWithoutKey,
    /// A class that no TAC has: its number.
    UnusedClass,
    /// A class of no tasks that has a TAC, so that nothing of it runs: its number, TASKS, and what would be right.
    ClassNeverRuns,
    /// An asynchronous TAC where ASYNTASKS is 0, so that it never runs: its name, ASYNTASKS, and what would be right.
    NoAsyntasks,
    /// A TAC from whose unit's first statement no PEND is reached: its name and the unit's.
    NeverEnds,
    /// A TAC whose TIME is less than the statements up to the nearest PEND: its name, TIME and these statements.
    TimeTooShort,
    /// The areas and services that the units can write need more pages than PGPOOL: PGPOOL and these pages.
    PoolMayBeSpent,
    /// A unit that no PROGRAM statement names: its name.
    UnusedUnit,
    /// A field that no statement of its unit names: its name.
    UnusedField,
    /// A label that no statement of its unit jumps to: its name.
    UnusedLabel,
    /// A statement that is reached from no first statement, the first of several.
    NeverReached,
    /// A run can go past the last statement without a PEND: the unit.
    RunsPastEnd,
    /// The literal of an FPUT or a DPUT that names no LTERM and no TAC that takes jobs, and a name of one that is nearly it.
    NoTarget,
    /// The literal of a call on ULS or TLS that names no declared block, and a name of one that is nearly it.
    NoBlock,
    /// A literal that is longer than a message may be: its length and NB.
    LongMessage,
    /// With one task, a PEND KP or PA while an area may be held: the variant.
    HeldOverPend,
    /// A call before INIT: the call.
    NoInit,
    /// An INIT after another.
    InitTwice,
    /// A PEND of a dialogue that needs a part of a message, and none was put: the variant.
    NoMessage,
    /// A call of an asynchronous service in a unit of dialogues: it, and the call in its place.
    NotInDialogue,
    /// A call or a variant of PEND of a dialogue in a unit of asynchronous services: it, and what is in its place.
    NotInJob,
    /// A literal follow-up of the wrong TYPE, CALL or STATUS: the TAC, its operand, and what would be right.
    WrongFollowUp,
    /// A comparison with a code that no call has: it, and the codes.
    NoSuchCode,
    /// A comparison of operands whose lengths can never be equal: each with the length that is nearest to the other's.
    NeverEqual,
    /// An area that a unit writes and none reads: its kind and name.
    NeverRead,
    /// An area that a unit reads and none writes: its kind and name.
    NeverWritten,
    /// An UNLK of an area that is not held: its kind and name.
    NotHeld,
    /// A write of an area that was freed since it was read: its kind and name.
    LostUpdate,
}

impl Warning {
    /// The name by which it is printed. It takes no memory.
    pub fn name(&self) -> &'static str {
        match self {
            Warning::AccessNotKept => "AccessNotKept",
            Warning::NotKept => "NotKept",
            Warning::NearOperand => "NearOperand",
            Warning::PassedPterm => "PassedPterm",
            Warning::NoPterm => "NoPterm",
            Warning::UnusedProgram => "UnusedProgram",
            Warning::UnusedKset => "UnusedKset",
            Warning::LockWithoutKey => "LockWithoutKey",
            Warning::UnusedClass => "UnusedClass",
            Warning::ClassNeverRuns => "ClassNeverRuns",
            Warning::NoAsyntasks => "NoAsyntasks",
            Warning::NeverEnds => "NeverEnds",
            Warning::TimeTooShort => "TimeTooShort",
            Warning::PoolMayBeSpent => "PoolMayBeSpent",
            Warning::UnusedUnit => "UnusedUnit",
            Warning::UnusedField => "UnusedField",
            Warning::UnusedLabel => "UnusedLabel",
            Warning::NeverReached => "NeverReached",
            Warning::RunsPastEnd => "RunsPastEnd",
            Warning::NoTarget => "NoTarget",
            Warning::NoBlock => "NoBlock",
            Warning::LongMessage => "LongMessage",
            Warning::HeldOverPend => "HeldOverPend",
            Warning::NoInit => "NoInit",
            Warning::InitTwice => "InitTwice",
            Warning::NoMessage => "NoMessage",
            Warning::NotInDialogue => "NotInDialogue",
            Warning::NotInJob => "NotInJob",
            Warning::WrongFollowUp => "WrongFollowUp",
            Warning::NoSuchCode => "NoSuchCode",
            Warning::NeverEqual => "NeverEqual",
            Warning::NeverRead => "NeverRead",
            Warning::NeverWritten => "NeverWritten",
            Warning::NotHeld => "NotHeld",
            Warning::LostUpdate => "LostUpdate",
        }
    }

    /// Whether somebody may do what is not meant: these are told first.
    pub(crate) fn is_of_access(&self) -> bool {
        match self {
            Warning::AccessNotKept => true,
            _ => false,
        }
    }
}
