//! The monitor as one value: its start, turns of tasks, and the commands of a script; and the loop over a script
//! (`script_run`).
//!
//! It stands on the statement of a service (kdcs_calls), on what follows one and on the state of a monitor with its
//! indexes (service_ends), and on the laws of runs. To the layer above, which runs scripts over a device, its contract
//! says that a core starts as the abstract monitor does, and that each turn and each command gives the abstract
//! monitor's next state and acts; what the laws of the abstract monitor say of every state holds of a core at any time.
//! Each turn and each command keeps what they say of commits: a transaction commits what its record, run in one go,
//! makes, and no message is doubled or lost. It knows no bytes of a file and no device.
#![tactic(auto)]

mod applying;
mod clock;
mod input;
mod message;
mod monitor;
pub mod script_run;
mod showing;
mod signing;
mod start;
mod starting;
mod statement;
mod take;
mod turning;

pub use monitor::Core;
pub use service_ends::Turned;
