//! Lines, blanks, quoted bytes, and the parts of a line, as every reader of a text takes them; and the statements of a
//! KDCDEF text, as they are written (`kdcdef_lex`).
//!
//! It stands on kd_base. To the readers of definitions, of units and of scripts its contract says what the first line
//! of a text is without its end, what a line is without the blanks in front, what is between two quotes, which parts a
//! line has, whatever a part is, and what is beside the first test that is true; and which statements a KDCDEF text
//! spells.
#![tactic(auto)]

mod blank;
mod choice;
pub mod kdcdef_lex;
mod line;
mod part;
mod quoted;

pub use blank::{from_first, is_blank};
pub use choice::first_true;
pub use line::{len_before, next_line};
pub use part::{Part, parts_of};
pub use quoted::{Quoted, quoted_at};
