//! The output lines: what is printed at a message, a sign-on, a refused input, an abnormal end, a tick and a restart,
//! and what `show` prints of the tables of a KDCFILE.
//!
//! It stands on the definitions of the abstract monitor, and on the tables of kdcs_types. To the layers above, the call
//! of an event answers exactly the defined line, ended by LF, with messages escaped, `table_lines` just the listing
//! of the tables, in the order of kinds and keys, and `put_rows` the lines of such rows; or each that memory ran out. It knows no state and no file, and does
//! not say when a line is sent.

mod event_lines;
mod listing;
mod row_lines;
mod texts;
mod words;

pub use event_lines::{
    asy_line, dump_line, ended_line, no_message_line, out_line, owner_text, prt_line, refused_line,
    signed_off_line, signed_on_line, sys_line, tick_line, tick_refused_line,
};
pub use listing::table_lines;
pub use row_lines::put_rows;
pub use texts::{cause_text, fault_text};
