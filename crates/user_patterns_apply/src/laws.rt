//! A law of applied user patterns. A law is a function without effect whose contract states a theorem.
ghost use Rattle.user_patterns_apply.specs.Own.{UserPatternsAreAccepted};

/// If a pattern applies at an operation of a well-formed module, and the new operations are within the limits, the
/// module accepts each of its edits.
pub fn pattern_edits_are_accepted()
    ensures { UserPatternsAreAccepted }
{}
