//! What a step answers.

use kdcs_types::{Call, Cause};

/// What came of the next statement.
#[derive(Drop)]
pub enum Stepped {
    /// It was a plain one, and it is done.
    Plain,
    /// It is this KDCS call, and nothing has changed.
    Asks(Call),
    /// It cannot be done, and nothing has changed: E08 after the last statement, E07 where TIME is spent, E06 where a
    /// calculation has no result that fits.
    Ends(Cause),
}
