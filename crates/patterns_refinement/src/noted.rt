//! From the reply to a check to the module: laws of patterns that a session's registry notes as `holds` without a width.
ghost use Rattle.patterns_refinement.specs.Answered.{CanonAnswerRefines, CanonListAnswerRefines, RewriteAnswerRefines};
ghost use Rattle.patterns_refinement.specs.CanonLists.{NotedCanonListsRefine};
ghost use Rattle.patterns_refinement.specs.Noted.{FormsAreSound, NotedApplyRefines, NotedAreProved};
ghost use Rattle.patterns_refinement.specs.Noted.{NotedRewriteRefines, NotesAreTrue, WrongIsNeverNoted};

use crate::proved::{
    lists_with_canon_refine, modules_stay_in_range, proved_patterns_refine,
    samples_hold_for_all_outcomes,
};
use crate::refined::observed_operations_are_refined;
use crate::rule_refinement::canonicalization_keeps_what_is_computed;
use user_patterns_registry::laws::{
    forgetting_keeps_the_others, replacing_keeps_the_others, what_is_defined_is_ready,
};
use user_patterns_widths::laws::polynomials_keep;

/// In the registry of a session, a pattern that is noted as `holds` without a width can be applied, and a check found
/// that it holds at all widths (`notes`). The form of each pattern whose new side makes no `divsi` passes the tests of
/// the laws (`forms`), and no claim proves another pattern. So the laws of proved patterns cover each pattern that is
/// noted as `holds` (`proved`).
pub fn noted_patterns_are_proved()
    ensures notes { NotesAreTrue }
    ensures forms { FormsAreSound }
    ensures proved { NotedAreProved }
{
    what_is_defined_is_ready();
    forgetting_keeps_the_others();
    replacing_keeps_the_others();
    polynomials_keep();
}

/// A pattern that a session's registry notes as `holds` without a width is sound: `apply` of it, and `rewrite` by a list
/// of such patterns and listed rules, refine what a module computes, as an observer sees it, if the module is ready and
/// in range. `rewrite` by a list that also has `canon`, or any of the rules 1 to 24, does so if the module has no
/// unrealized casts, and no loops and conditionals of `scf` (`canon`).
pub fn noted_patterns_refine()
    ensures apply { NotedApplyRefines }
    ensures rewrite { NotedRewriteRefines }
    ensures canon { NotedCanonListsRefine }
{
    noted_patterns_are_proved();
    proved_patterns_refine();
    lists_with_canon_refine();
}

/// After the rewriter answered `rewrite` by such a list, its module refines the module before, whatever the reply is: also
/// if the rewrite is refused, or memory runs out. So it does after `canon` of a module without unrealized casts, and
/// without loops and conditionals of `scf`.
pub fn answers_refine()
    ensures rewrite { RewriteAnswerRefines }
    ensures list { CanonListAnswerRefines }
    ensures canon { CanonAnswerRefines }
{
    noted_patterns_refine();
    canonicalization_keeps_what_is_computed();
    modules_stay_in_range();
    observed_operations_are_refined();
}

/// No session notes `select(c, a, false) => andi(c, a)` as `holds` without a width. It holds for all known values, and
/// is wrong if `a` is poison.
pub fn wrong_patterns_are_not_noted()
    ensures { WrongIsNeverNoted }
{
    noted_patterns_are_proved();
    samples_hold_for_all_outcomes();
}
