//! The definition of dialect conversion: targets, legal operations, legalizing operations and reconciling casts. The
//! module `match_failure` finds the reason why a rule doesn't apply at an operation.
#![tactic(auto)]

pub mod applied_rule;
pub mod casts;
pub mod laws;
pub mod legal;
pub mod listed_rules;
pub mod match_failure;
pub mod names;
pub mod target;
pub mod target_checks;

pub use patterns_base::rule;
pub use patterns_lowering::region_rules::reason;
