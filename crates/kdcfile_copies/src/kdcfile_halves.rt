//! A copy of a KDCFILE on one half of a twin: read, made, or changed by a commit, while the other half stays as it is; and
//! a line that is sent beside both.
//!
//! It stands on the calls over one device, and on kd_device, whose `HalfDevice` is one half with the line as a device; the
//! twin is lent to it. To the crate that keeps both copies, the contract of each call promises of the half that is used
//! what the call over one device promises, that the other half's disk is the same, and that a stop leaves each file that
//! the call may leave only beside a file of the other half that a stop could leave before. So that crate sees a twin
//! alone, and no device, origin or place.

mod committing;
mod loading;
mod making;
mod saying;

pub use committing::commit_half;
pub use loading::load_half;
pub use making::make_half;
pub use saying::say_both;
