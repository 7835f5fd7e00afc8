//! The statements of a KDCDEF text, as they are written: keyword, keys, words, quoted values and lists.
//!
//! It stands on kd_base and on the lines, blanks and quoted bytes of this crate. To the reader of typed statements its
//! contract says that the statements it gets are those that the text spells, that every other text is refused for the
//! fault of its least line, and how many lines and operands there can be.

mod fault;
mod group;
mod laws;
mod line;
mod parse;
mod quoted;
mod read;
mod statement;
mod statements;
mod token;
mod tokens;
mod word;

pub use fault::LexFault;
pub use laws::{plain_text_spells, read_statements_are_spelled};
pub use quoted::QuotedBytes;
pub use read::lines;
pub use statement::{Items, Operands, RawItem, RawOperand, RawStatement, RawValue};
pub use statements::Statements;
pub use word::Word;
