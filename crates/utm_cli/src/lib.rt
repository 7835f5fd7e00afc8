//! The program: what the words of a call ask for, the answer as a status, and between them the work: over a KDCFILE the
//! report of its generation (`gen`), the run of a script (`run`), the list of its tables (`show`), their way to a new
//! generation (`update`) or the trail of a script's run (`trail`); the audit of a trail (`audit`); and on a device of its
//! own the run of the made application (`make`).
//!
//! It stands on all crates over one disk, and on kdcfile_double and twin_run, which keep two copies alike. It has two public
//! calls: `utm`, over one disk, and `utm_twin`, over two, which the program makes. Where the texts define one file it
//! promises what `utm` does; and for two copies that a run goes on while one disk fails, and what every stop leaves of the
//! pair and of each half by itself.
#![tactic(auto)]

mod lawful;
mod made_run;
mod run;
mod top;
mod twin;

pub use top::utm;
pub use twin::utm_twin;
