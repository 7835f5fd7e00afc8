//! Rows of the tables as records of a KDCFILE, and back.
//!
//! It stands on kd_base, kd_records and kdcs_types. To the crates that open and commit to a KDCFILE, its definitions say
//! which bytes a row's key and value are. Its contract says that `records` and `difference` answer just the content and
//! the patch of tables and changes; that `tables_of` answers proper tables whose records a content has, just the tables
//! that the records were made of, and `None` only where no tables have them; that tables with one content are one, and
//! rows with one record; that keys of records ascend as keys of rows do; and that the patch of some changes makes the
//! records of the changed tables. Its readers and writers of single fields serve crates that have further values as bytes.
//! Which tables suit a generation, and what they are charged, is said by table_fit.
#![tactic(auto)]

mod ascending;
mod decode;
mod encode;
mod keys;
mod laws;
mod reading;
mod rows;
mod values;

pub use ascending::ascend;
pub use decode::tables_of;
pub use encode::{difference, records};
pub use keys::record_key;
pub use laws::{keys_keep_their_order, patches_match_changes, records_are_one_to_one};
pub use reading::{Unread, last_in, list_in, u8_in, u64_in};
pub use rows::{key_in, row_in, row_of};
pub use values::{put_last, service_value};
