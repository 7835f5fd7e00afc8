//! KDCS calls and what they answer.

use kd_base::{Bytes, Mode, Variant};

/// The return code of a call: KCRCCC.
#[derive(Clone, Copy, PartialEq, Eq)]
pub enum Code {
    /// `000`.
    Done,
    /// No message part is left to read.
    K01,
    /// What was read is longer than the target field, which has its front.
    K02,
    /// There is no such area.
    K03,
    /// The lock was not free in time.
    K04,
    /// Waiting for the lock would never end.
    K05,
    /// The transaction does not hold the lock.
    K06,
    /// The transaction wrote or deleted the area, and cannot release it.
    K07,
    /// The name is not in the generation, or of no use here.
    K08,
    /// There are as many LSSBs as a service may have.
    K09,
    /// No moment has these numbers.
    K10,
    /// The operand is no name.
    K11,
}

/// Why a service ends abnormally.
#[derive(Clone, Copy, PartialEq, Eq)]
pub enum Cause {
    /// INIT is missing or repeated.
    E01,
    /// The call is not for this kind of service.
    E02,
    /// PEND without a message.
    E03,
    /// A bad follow-up TAC.
    E04,
    /// The PEND variant is not for this kind of service.
    E05,
    /// Arithmetic.
    E06,
    /// TIME is spent.
    E07,
    /// The unit ended without PEND.
    E08,
    /// The page pool is full.
    E09,
    /// Too many GSSBs.
    E10,
    /// The numbers of jobs are spent.
    E11,
    /// The message is too long.
    E12,
    /// PEND ER.
    Er,
}

/// A KDCS call with its operands as bytes. A target field is given by its length.
#[derive(Drop)]
pub enum Call {
    Init,
    Mget(u32),
    Mput(Bytes),
    Fget(u32),
    /// To a TAC or an LTERM, a message.
    Fput(Bytes, Bytes),
    /// To a TAC or an LTERM, at days, hours, minutes and seconds, a message.
    Dput(Bytes, Mode, Bytes, Bytes, Bytes, Bytes, Bytes),
    SgetGb(Bytes, u32),
    SputGb(Bytes, Bytes),
    SrelGb(Bytes),
    SgetKp(Bytes, u32),
    SgetRl(Bytes, u32),
    SputMs(Bytes, Bytes),
    SrelLb(Bytes),
    SgetUs(Bytes, u32),
    SputUs(Bytes, Bytes),
    Gtda(Bytes, u32),
    Ptda(Bytes, Bytes),
    UnlkGb(Bytes),
    UnlkUs(Bytes),
    UnlkDa(Bytes),
    /// A variant, with its follow-up TAC where it takes one.
    Pend(Variant, Option<Bytes>),
}

/// What a call answers.
pub struct Reply {
    pub code: Code,
    /// The true length of what was read, from 0 to 99,999: KCRLM.
    pub length: u32,
    /// What goes into the target field.
    pub content: Option<Bytes>,
}

impl Drop for Reply {
    fn drop(self) {
        let Reply {
            code,
            length,
            content,
        } = self;
        let _ = code;
        let _ = length;
        let _ = content;
    }
}
