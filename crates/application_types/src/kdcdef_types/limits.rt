//! The numbers of a generation.

use kd_base::Name;

/// What the MAX statements give together, their defaults filled in.
#[derive(Clone, Copy)]
pub struct Limits {
    pub appliname: Name,
    /// 1 to 240.
    pub tasks: u16,
    /// Tasks that may hold asynchronous services at once, 0 to 240.
    pub asyntasks: u16,
    /// 0 to 30,000.
    pub gssbs: u32,
    /// LSSBs of a service, 0 to 1,000.
    pub lssbs: u32,
    /// Bytes of the communication area, 0 to 32,767.
    pub kb: u32,
    /// Bytes of the standard primary working area, 0 to 32,767.
    pub spab: u32,
    /// Bytes of a message, 1 to 32,700.
    pub nb: u32,
    /// Pages of the page pool, 16 to 30,000.
    pub pgpool: u32,
    /// Ticks that a request waits for a lock, 0 to 32,767.
    pub reswait: u64,
    /// Bytes of a page: 2048, 4096 or 8192.
    pub blksize: u32,
    /// How often a job is delivered again, 0 to 254, and 255 for without limit.
    pub redelivery: u8,
}

/// How many statements of a kind there are, and what was passed over.
#[derive(Clone, Copy, PartialEq, Eq)]
pub struct Counts {
    pub users: u32,
    pub pterms: u32,
    pub lterms: u32,
    pub tacs: u32,
    pub programs: u32,
    /// Statements that are read and not kept.
    pub passed_statements: u32,
    /// Operands that are read and not kept.
    pub passed_operands: u32,
}
