//! What is found in a file.

use kdcfile_store::PagedStore;

/// A copy that was loaded or made: its file, and the sequence of its last commit.
pub struct LoadedCopy {
    pub store: PagedStore,
    pub sequence: u64,
}

impl Drop for LoadedCopy {
    fn drop(self) {
        let LoadedCopy { store, sequence } = self;
        let _ = store;
        let _ = sequence;
    }
}

/// What a file is.
#[derive(Drop)]
pub enum Found {
    /// It has no bytes.
    Empty,
    /// It has bytes, and is no copy.
    NoCopy,
    Copy(LoadedCopy),
}
