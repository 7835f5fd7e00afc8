//! Which work a free task takes: the ready list, the services that the tasks hold, and the limits of TAC classes.
//!
//! It stands on the definitions of the monitor, which say what is allowed and what is picked, on the generation, whose
//! limits it asks for, on the queue of jobs, and on maps in order. To the layers above, its contract says that a free
//! task takes exactly the work of the definitions, and what becomes of the ready list and of the tasks. Nothing goes
//! over the ready list: its services are found by their kinds and by themselves, and what the tasks hold is counted.

mod index;
mod kinds;
mod limits;
mod marks;
mod places;
mod ready;
mod scheduler;

pub use kinds::Classed;
pub use limits::class_of;
pub use scheduler::Scheduler;
