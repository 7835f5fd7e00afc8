//! Acts of the monitor and whole scripts over a KDCFILE on two disks.
//!
//! It stands on kdcfile_double, whose two copies it keeps alike, and on device_acts and device_run, whose proofs for
//! whatever keeps a content hold for two files too. To the call above, its contract says that at each moment what was sent
//! and the copy that counts are a cut of the acts, with the lines of the copies before and behind them, as is each half by
//! itself while no call on it failed; that after `Ok` each half is the last copy or is lost; and that a run fails only where
//! a call of the line failed, or calls on all halves in use.
#![tactic(auto)]

mod keeper;
mod lines;
mod running;

pub use keeper::{Start, TwinKeeper};
pub use lines::{say_lost, say_mended};
pub use running::{run_twice, send_twice};
