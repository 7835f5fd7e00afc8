//! What a file keeps, in memory: changed where it is, and taken back where a commit is not made.
ghost use Rattle.std.specs.Prelude.{◌≡◌};

use kd_records::{Content, PatchedContent, Records};
use page_drafts::{Table, TableDraft};
use std::alloc::Global;

/// The slots of a directory, and the content whose records they name.
pub(crate) struct Filed {
    pub table: Table,
    pub content: Content,
}

impl Drop for Filed {
    fn drop(self) {
        let Filed { table, content } = self;
        let _ = table;
        let _ = content;
    }
}

impl Filed {
    /// No slots and no records. It takes no memory.
    pub fn nothing(alloc: Global) -> Filed {
        Filed {
            table: Table::empty(alloc),
            content: Content {
                clock: 0,
                next_job: 0,
                items: Records::new(alloc),
            },
        }
    }

    /// Its table and its content.
    pub fn into_parts(self) -> (Table, Content)
        ensures { result ≡ (self.table, self.content) }
    {
        let Filed { table, content } = self;
        (table, content)
    }
}

/// The same with the changes of a patch made in it.
#[derive(Drop)]
pub(crate) struct Filing {
    pub table: TableDraft,
    pub content: PatchedContent,
}

impl Filing {
    /// What was there before. It takes no memory.
    pub fn back(self) -> Filed
        ensures table { result.table ≡ self.table.before }
        ensures content { result.content ≡ self.content.before }
    {
        Filed {
            table: self.table.back(),
            content: self.content.back(),
        }
    }

    /// What is there now. It takes no memory.
    pub fn done(self) -> Filed
        ensures table { result.table ≡ self.table.slots }
        ensures content { result.content ≡ self.content.content }
    {
        Filed {
            table: self.table.done(),
            content: self.content.done(),
        }
    }
}
