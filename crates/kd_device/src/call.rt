//! What a memory keeps of its past calls.

/// So many bytes of a buffer, after this place, and so many zero bytes after them, which the buffer does not have.
#[derive(Clone, Copy, PartialEq, Eq)]
pub struct Span {
    pub from: usize,
    pub len: usize,
    pub zeros: usize,
}

/// A call that a stop may come after, and whether it was done. The disks are numbered from 0 on; the bytes lie in one
/// buffer.
#[derive(Clone, Copy, PartialEq, Eq)]
pub enum Call {
    Write {
        disk: usize,
        at: usize,
        span: Span,
        done: bool,
    },
    Sync {
        disk: usize,
        done: bool,
    },
    Emit {
        span: Span,
        done: bool,
    },
}
