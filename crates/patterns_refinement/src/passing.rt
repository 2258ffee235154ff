//! User patterns that match no `select` and create no division or remainder refine what a module computes, also if
//! values are poison, if they refine at the kinds at hand.
ghost use Rattle.patterns_refinement.specs.ByForm.{KindedByForm};
ghost use Rattle.patterns_refinement.specs.Narrow.{NarrowCanonicalizationKeeps, NarrowKeep};
ghost use Rattle.patterns_refinement.specs.Narrow.{NarrowRewritingKeeps, NarrowRulesKeep};
ghost use Rattle.patterns_refinement.specs.Passing.{AppliedIsFound, CheckedPassingKeep, PassingKeep};
ghost use Rattle.patterns_refinement.specs.PassingSamples.{SampleIsDoubled, SampleIsNarrow, SamplesArePassing};

use crate::rule_refinement::listed_rules_keep_what_is_computed;
use greedy::laws::rewriting_by_its_rules_is_canonicalization;
use patterns_base::laws::only_listed_rules_apply;
use patterns_soundness::laws::no_edit_is_refused;
use user_patterns_apply::laws::pattern_edits_are_accepted;

/// A pattern that matches no `select` and creates no division or remainder refines what a ready module computes, if it
/// refines at the kinds at hand. `checked` takes the refinement from a check up to some width. A pattern has at most
/// one match at an operation (`found`).
pub fn passing_patterns_keep_what_is_computed()
    ensures passing { PassingKeep }
    ensures checked { CheckedPassingKeep }
    ensures found { AppliedIsFound }
{
    pattern_edits_are_accepted();
}

/// In a module without `index` whose integers have at most as many bits as a check tested, the check is enough for such
/// a pattern. This is proved for a rewrite at an operation, for rewriting by a list of patterns and listed rules up to
/// a limit, and for canonicalization. Each keeps the module narrow.
pub fn narrow_modules_are_kept()
    ensures pattern { NarrowKeep }
    ensures rules { NarrowRulesKeep }
    ensures rewriting { NarrowRewritingKeeps }
    ensures canonicalization { NarrowCanonicalizationKeeps }
{
    no_edit_is_refused();
    only_listed_rules_apply();
    rewriting_by_its_rules_is_canonicalization();
    pattern_edits_are_accepted();
    listed_rules_keep_what_is_computed();
}

/// If a pattern is kinded by its form, its new operations take operands of the kinds that they need, at all widths at
/// which the pattern may be applied.
pub fn patterns_are_kinded_by_form()
    ensures { KindedByForm }
{}

/// Two sample patterns pass poison on and aren't strict: a product by a power of two becomes a shift, and a truncation
/// of a sum becomes a sum of truncations. The first applies in a ready and narrow module that has poison among its
/// values.
pub fn samples_are_passing()
    ensures patterns { SamplesArePassing }
    ensures ready { SampleIsDoubled }
    ensures narrow { SampleIsNarrow }
{}
