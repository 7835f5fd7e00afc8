//! What holds of every unit run, as contracts of functions that do nothing.
ghost use Rattle.abstract_monitor.specs.KeepsReady.{AnswersStayReady, StepsStayReady};

/// A run that can be stepped can be stepped again after a plain statement, and after a call's answer; KB and SPAB keep
/// their lengths.
pub fn runs_stay_ready()
    ensures steps { StepsStayReady }
    ensures answers { AnswersStayReady }
{}
