//! What the laboratory prints: commands and the turns below them, locks, tasks and jobs.
//!
//! It listens to the steps that are performed, and stands on monitor_core, whose core it looks at. To the layer above,
//! its contract says that a printer prints just the text of what it hears, which a definition says line by line. What
//! `LOCKS`, `TASKS` and `JOBS` list is tested and not proved. It knows no file; what is printed goes to a console, of
//! which the layer above says what it is.

mod console;
mod listing;
mod phrases;
mod printer;
mod source;
mod turn_lines;

pub use console::Console;
pub use listing::{job_lines, lock_lines, task_lines};
pub use phrases::{put_command, put_number};
pub use printer::Printer;
pub use source::Source;
