//! User patterns that hold at all widths for all outcomes of their variables, poison included, refine what a module
//! computes: each at an operation, and so runs of such patterns, of patterns that hold by their form, and of rules.
ghost use Rattle.patterns_refinement.specs.CanonLists.{CanonListsRefine};
ghost use Rattle.patterns_refinement.specs.ForOutcomes.{CanonStaysInRange, OutcomesKeep, OutcomesKeepThere};
ghost use Rattle.patterns_refinement.specs.ForOutcomes.{PatternsStayInRange, ProvedApplyRefines};
ghost use Rattle.patterns_refinement.specs.ForOutcomes.{ProvedRewriteRefines, RulesStayInRange};
ghost use Rattle.patterns_refinement.specs.ForOutcomesSamples.{PoisonRefutes, SampleHolds};

use crate::rule_refinement::listed_rules_keep_what_is_computed;
use greedy::laws::rewriting_by_its_rules_is_canonicalization;
use patterns_base::laws::only_listed_rules_apply;
use patterns_soundness::laws::no_edit_is_refused;
use user_patterns_apply::laws::pattern_edits_are_accepted;
use user_patterns_widths::laws::polynomials_keep;

/// A pattern that refines for all outcomes of its variables, at the kinds of a match, refines what a ready module
/// computes (`there`). A pattern that does so at all widths refines each ready module in range, and keeps it in range
/// (`patterns`), if its form passes some tests.
pub fn patterns_for_all_outcomes_keep_what_is_computed()
    ensures there { OutcomesKeepThere }
    ensures patterns { OutcomesKeep }
{
    pattern_edits_are_accepted();
}

/// In a module in range, each integer has 1 to 128 bits. The listed rules, patterns that hold by their form, and
/// canonicalization keep modules in range.
pub fn modules_stay_in_range()
    ensures rules { RulesStayInRange }
    ensures forms { PatternsStayInRange }
    ensures canonicalization { CanonStaysInRange }
{
    no_edit_is_refused();
    pattern_edits_are_accepted();
    polynomials_keep();
    only_listed_rules_apply();
    rewriting_by_its_rules_is_canonicalization();
}

/// After `apply` of a listed rule or of a pattern that holds at all widths, and after `rewrite` by a list of them, an
/// observer sees a refinement of what an observer saw before, if the module is ready and in range.
pub fn proved_patterns_refine()
    ensures apply { ProvedApplyRefines }
    ensures rewrite { ProvedRewriteRefines }
{
    no_edit_is_refused();
    pattern_edits_are_accepted();
    polynomials_keep();
    listed_rules_keep_what_is_computed();
}

/// After `rewrite` by a list of such rules and patterns and of rules 1 to 24, as `canon` in a list means, an observer sees
/// a refinement of what an observer saw before, if the module has no unrealized casts, and no loops and conditionals of
/// `scf`.
pub fn lists_with_canon_refine()
    ensures { CanonListsRefine }
{
    no_edit_is_refused();
    pattern_edits_are_accepted();
    polynomials_keep();
    only_listed_rules_apply();
    listed_rules_keep_what_is_computed();
}

/// `select(c, a, a) => a` holds for all outcomes. `select(c, a, false) => andi(c, a)` holds for all known values, and
/// not for all outcomes: it is refuted by a poison `a`.
pub fn samples_hold_for_all_outcomes()
    ensures holds { SampleHolds }
    ensures refuted { PoisonRefutes }
{}
