//! The soundness theorems of the rewrite rules. Each is a function that does nothing; its contract states the theorem.
ghost use Rattle.patterns_soundness.specs.base.declared.rule.Rule.{Rule};
ghost use Rattle.patterns_soundness.specs.Soundness.{Soundness};
ghost use Rattle.patterns_soundness.specs.Accepted.{AreAccepted};

/// Each rule has every property of `Soundness`: it keeps values, applies only at the operations that the rule table
/// lists, and so on.
pub fn each_rule_has_its_facts()
    ensures { (r : Rule) → Soundness r }
{}

/// If a rule applies at an operation of a well-formed module, and its result is within the limits, none of its edits
/// is refused.
pub fn no_edit_is_refused()
    ensures { AreAccepted }
{}
