//! Tests of kd_device, kd_host and the two stores: what no case of the whole program reaches; and the second of the
//! stores (`whole_store`).
//!
//! The tests are here, so that these crates are proved once and not once more with their tests. A test is here only
//! where no script and no KDCFILE of a case makes the call, or where no line shows the value. No crate uses it.
#![tactic(auto)]

#[cfg(test)]
mod tests;
pub mod whole_store;
