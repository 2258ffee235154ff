//! User patterns that hold at all widths refine what a module computes, also if values are poison: each at an
//! operation, and so runs of patterns and rules.
ghost use Rattle.patterns_refinement.specs.RuleListRuns.{RuleListRewritingKeeps, RuleListRunsKeep, ShownAreKept};
ghost use Rattle.patterns_refinement.specs.Strict.{RegisteredKeep, HoldingKeep, StrictKeep};
ghost use Rattle.patterns_refinement.specs.StrictSamples.{SampleIsReady, SamplesAreStrict};

use crate::rule_refinement::listed_rules_keep_what_is_computed;
use user_patterns_apply::laws::pattern_edits_are_accepted;
use user_patterns_widths::laws::{check_holds_at_all_widths, polynomials_keep};

/// A pattern of binary arithmetic on one type that refines at all types keeps modules ready and refines what they
/// compute. `holding` takes the premise from a check that covers all widths, and `registered` is about such a pattern
/// of a registry.
pub fn strict_patterns_keep_what_is_computed()
    ensures strict { StrictKeep }
    ensures holding { HoldingKeep }
    ensures registered { RegisteredKeep }
{
    pattern_edits_are_accepted();
    polynomials_keep();
    check_holds_at_all_widths();
}

/// If each rule and pattern of a list keeps modules ready and refines what they compute, so does each run of them.
pub fn list_runs_refine()
    ensures { RuleListRunsKeep }
{}

/// If each rule and pattern of a list keeps modules ready and refines what they compute, so does rewriting by the list
/// up to a limit.
pub fn rule_list_rewriting_keeps_what_is_computed()
    ensures { RuleListRewritingKeeps }
{}

/// Each listed rule, and each pattern whose check covers all widths, keeps modules ready and refines what they compute.
pub fn listed_rules_and_patterns_keep_what_is_computed()
    ensures { ShownAreKept }
{
    listed_rules_keep_what_is_computed();
    strict_patterns_keep_what_is_computed();
}

/// There are such patterns, by polynomials and bit by bit. One of them applies in a ready module that has poison among
/// its values.
pub fn samples_are_strict()
    ensures patterns { SamplesAreStrict }
    ensures ready { SampleIsReady }
{}
