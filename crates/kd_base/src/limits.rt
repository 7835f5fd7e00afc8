//! How long texts and contents are at most, and how far the clock and the job numbers go.

/// The longest text that is read, in bytes.
pub const LONGEST_TEXT: usize = 16_777_216;

/// The longest content of an area, a message or a literal, in bytes.
pub const LONGEST_CONTENT: usize = 32_767;

/// The greatest clock, in ticks.
pub const LAST_CLOCK: u64 = 999_999_999_999;

/// The greatest next job number.
pub const LAST_NEXT_JOB: u64 = 1_000_000_000_000;
