//! The run of one program unit.

use crate::call::Code;
use kd_base::{Bytes, Name};

/// What a program unit reads of itself: the KB header.
#[derive(Clone, Copy, PartialEq, Eq)]
pub struct Header {
    /// KCBENID, the user.
    pub benid: Name,
    /// KCLOGTER, the LTERM.
    pub logter: Name,
    /// KCTACVG, the first TAC of the service.
    pub tacvg: Name,
    /// KCTACAL, the TAC of this unit run.
    pub tacal: Name,
}

/// A program unit run between two statements.
pub struct RunState {
    /// The number of the next statement, from 1.
    pub place: u32,
    /// How many statements were done.
    pub count: u32,
    /// TIME: how many statements may be done.
    pub budget: u32,
    /// The communication area KB.
    pub kb: Bytes,
    /// The standard primary working area SPAB.
    pub spab: Bytes,
    /// KCRCCC of the last call.
    pub code: Code,
    /// KCRLM of the last call, from 0 to 99,999.
    pub length: u32,
    pub header: Header,
}

impl Drop for RunState {
    fn drop(self) {
        let RunState {
            place,
            count,
            budget,
            kb,
            spab,
            code,
            length,
            header,
        } = self;
        let _ = place;
        let _ = count;
        let _ = budget;
        let _ = kb;
        let _ = spab;
        let _ = code;
        let _ = length;
        let _ = header;
    }
}
