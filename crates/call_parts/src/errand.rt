//! What the texts of a call ask for.
ghost use Rattle.std.specs.Prelude.{◌≡◌};
ghost use Rattle.call_parts.specs.Asking.{work_of};

use abstract_monitor::Command;
use application_read::Application;
use audit_trail::Trail;
use kd_base::Sequence;
use refusals::Refusal;

/// What every task works on: the application that the definition and the units make, and the fingerprint of both texts.
#[derive(Drop)]
pub struct Work {
    pub application: Application,
    pub fingerprint: [u8; 32],
}

/// What is done over the files of a BASE.
#[derive(Drop)]
pub enum Task {
    /// Acts are kept in the files, which are made where they are empty.
    Store(Storing),
    /// Lines of the tables are sent; the files stay as they are.
    Look(Looking),
    /// The tables are carried to the generation.
    Update,
    /// This trail is replayed; no file is looked into.
    Audit(Trail),
}

/// Which acts are kept.
#[derive(Drop)]
pub enum Storing {
    /// Those of `gen`: its report.
    Report,
    /// Those of `run`: what the commands make.
    Script(Sequence<Command>),
}

/// What is sent of the tables.
#[derive(Drop)]
pub enum Looking {
    /// Their list, by `show`.
    Listing,
    /// The trail of the run of these commands from them, by `trail`.
    Trail(Sequence<Command>),
}

/// What is asked for over one file, or by `make` over none.
#[derive(Drop)]
pub enum OneFile {
    Over(Work, Task),
    /// The run of the commands of so many made inputs.
    Make(u32, Work, Sequence<Command>),
}

/// What is asked for over two files, or why the third text asks for nothing.
#[derive(Drop)]
pub enum TwoFiles {
    Over(Work, Task),
    Refused(Refusal),
}

/// What the texts ask for.
#[derive(Drop)]
pub enum Asked {
    One(OneFile),
    /// The definition asks for two copies of the KDCFILE, by the MAX statement at this line.
    Two(u32, TwoFiles),
}

impl OneFile {
    /// The application that the definition and the units make, whatever is asked for over it.
    pub fn into_work(self) -> Work
        ensures { result ≡ work_of self }
    {
        match self {
            OneFile::Over(work, _task) => work,
            OneFile::Make(_inputs, work, _commands) => work,
        }
    }
}
