//! What a plain statement of a program unit means, which KDCS call a statement asks for, and what storing a call's
//! answer means.
//!
//! It stands on kd_base, kdcs_types and application_types, and has no code but laws. Its definitions are by cases on
//! the statement, over lists of bytes and numbers: the step of a statement is proved to meet them, and the monitor and
//! the replay of a transaction cite them.

ghost use Rattle.abstract_monitor.specs.Rows.{Moves, Numbers, Comparisons, CallsAndEnds};

/// What statements do to some runs.
pub fn statement_rows()
    ensures moves { Moves }
    ensures numbers { Numbers }
    ensures comparisons { Comparisons }
    ensures ends { CallsAndEnds }
{}
