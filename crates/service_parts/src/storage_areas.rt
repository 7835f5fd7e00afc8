//! The private writes of a transaction: storage areas that it wrote or deleted, and its LSSBs.
//!
//! It stands on the types of the monitor and on the definitions of its calls. To the layers above, its contract says that
//! a read shows the last own write or deletion and else the tables, that an LSSB is written, and refused, as the calls
//! define it, and what the writes change in the tables, in the order of their keys.

mod change;
mod overlay;

pub use overlay::Overlay;
