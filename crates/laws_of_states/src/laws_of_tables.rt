//! What holds of the monitor's tables, sessions and open transactions: that it holds at each start, and that each call,
//! statement, turn and command keeps it.
//!
//! It stands on the definitions of the monitor and on what is to hold of its states. The functions do nothing: their
//! contracts are laws on the definitions, which all crates above may cite. `specs/` has their proofs, step by step: the
//! unit run of a transaction (`Ready`), calls and statements (`Calls`, `Stated`), openings (`Openings`), what becomes of
//! the tables (`Rows`, `Points`, `Ends`), and turns and commands (`Turned`, `Commanded`).

ghost use Rattle.laws_of_states.specs.OpenLaws.{RunsAreReady, OpensHaveUnits, OperandsAreShort, CallsKeep, StatementsKeep, FurtherRunsGoOn, OpeningsGoOn};
ghost use Rattle.laws_of_states.specs.PointLaws.{PointsStaySound, EndsStaySound, SignOffsStaySound, ShowsStaySound, TicksStaySound, StartsAreSound};
ghost use Rattle.laws_of_states.specs.StateLaws.{StatesStaySound, MadeIsApplication, MadeStartIsSound};

/// An open transaction has a unit, its unit run can be stepped, and no operand of a call is longer than 32,767 bytes.
pub fn runs_are_ready()
    ensures units { OpensHaveUnits }
    ensures ready { RunsAreReady }
    ensures operands { OperandsAreShort }
{}

/// Calls, statements, further unit runs and openings leave transactions that can go on, and a call's reply can be
/// stored.
pub fn transactions_go_on()
    ensures calls { CallsKeep }
    ensures statements { StatementsKeep }
    ensures runs { FurtherRunsGoOn }
    ensures openings { OpeningsGoOn }
{}

/// Synchronisation points that are not refused, abnormal ends, signing off, shown messages, ticks and starts leave
/// tables in order that suit the generation; all but the points take no more pages.
pub fn points_and_ends_suit()
    ensures points { PointsStaySound }
    ensures ends { EndsStaySound }
    ensures sign_offs { SignOffsStaySound }
    ensures shows { ShowsStaySound }
    ensures ticks { TicksStaySound }
    ensures starts { StartsAreSound }
{}

/// Each turn and each command keeps what holds of tables, sessions and open transactions, where all else that holds of
/// a state does too; and each start from tables that suit begins with it.
pub fn states_stay_sound()
    ensures { StatesStaySound }
{}

/// The laws speak of something: the made application is one that they take, and its start from empty tables is sound.
pub fn the_made_application_is_taken()
    ensures application { MadeIsApplication }
    ensures start { MadeStartIsSound }
{}
