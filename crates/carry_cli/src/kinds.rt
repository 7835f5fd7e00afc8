//! What is told of the files of a BASE and of its texts.

/// What a file was made with, and what its records take of it.
#[derive(Clone, Copy)]
pub struct Making {
    /// In bytes.
    pub blksize: u32,
    /// PGPOOL of the definition that it was made for, in pages. A copy has one page more, for its sequence.
    pub pgpool: u32,
    /// How many of these pages the records are charged.
    pub used: u32,
    /// Of the texts that it was made with.
    pub fingerprint: [u8; 32],
}

/// What a file is.
#[derive(Clone, Copy)]
pub enum Kind {
    /// There is none of its name.
    Missing,
    /// It has no bytes.
    Empty,
    /// Its first byte is 0: its making or its mending did not end.
    Shut,
    /// It has other bytes, which stand for nothing.
    NoKdcfile,
    /// A KDCFILE that is kept once.
    Single(Making),
    /// A copy of one that is kept twice, with the number of its last commit.
    Copy(u64, Making),
}

/// Whether there is a file of each name, as whoever calls found it.
#[derive(Clone, Copy)]
pub struct There {
    pub first: bool,
    pub second: bool,
}

/// Which of two files counts as the copy of a KDCFILE that is kept twice.
#[derive(Clone, Copy)]
pub enum Counting {
    /// Neither is a copy.
    Neither,
    /// Both are the same copy.
    Alike,
    /// The first one counts, and the second is behind or no copy.
    First,
    /// The second one counts, and the first is behind or no copy.
    Second,
}

/// What is told of the definition and the units.
#[derive(Clone, Copy)]
pub enum Said {
    /// They make an application of one KDCFILE, and have this fingerprint.
    Single([u8; 32]),
    /// They make one whose KDCFILE is kept twice, and have this fingerprint.
    Double([u8; 32]),
    /// They make none.
    Refused,
    /// One of them is not there, or could not be read.
    Unread,
}

/// Why the next run would refuse the files.
#[derive(Clone, Copy)]
pub enum Why {
    NotKdcfile,
    OtherGeneration,
    SequenceSpent,
}

/// What the next run would do with the files.
#[derive(Clone, Copy)]
pub enum Next {
    /// It does not come to them: it would refuse the texts.
    Texts,
    /// It would make them.
    Makes,
    /// It would go on from their tables.
    GoesOn,
    Refuses(Why),
}

/// What the files of a BASE are.
#[derive(Clone, Copy)]
pub struct State {
    pub first: Kind,
    pub second: Kind,
    pub counting: Counting,
    pub said: Said,
    pub next: Next,
}
