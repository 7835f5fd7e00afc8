//! How findings are told: refusals with what is at fault, and the words that are nearly the same.

mod detail;
mod form;
mod line_kind;
mod near;
mod refusal;
mod text_name;

pub use detail::Details;
pub use form::{Form, form_of};
pub use line_kind::{LineKind, first_word, kind_of, up_to_last, without_blanks};
pub use near::{is_near, nearest};
pub use refusal::{Refusal, Refusals};
pub use text_name::TextName;
