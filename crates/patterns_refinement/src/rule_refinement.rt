//! The rewrite rules refine what a module computes, also if values are poison: each at an operation, and so whole runs
//! of them. Each rule keeps modules ready: well-formed, sorted, and with operands of the kinds that the operations
//! need.
ghost use Rattle.patterns_base.specs.declared.rule.Rule.TheVariants.{AddNegative, CancelItself, CastBack};
ghost use Rattle.patterns_base.specs.declared.rule.Rule.TheVariants.{ChooseKnown, ChooseOpposite, ChooseSame};
ghost use Rattle.patterns_base.specs.declared.rule.Rule.TheVariants.{ChooseTruth, CompareItself, CompareZero};
ghost use Rattle.patterns_base.specs.declared.rule.Rule.TheVariants.{CutCast, DropAllOnes, DropOne};
ghost use Rattle.patterns_base.specs.declared.rule.Rule.TheVariants.{DropZero, EraseDead, ExpandDifference};
ghost use Rattle.patterns_base.specs.declared.rule.Rule.TheVariants.{ExpandMinMax, ExpandRemainder, ExtendExtension};
ghost use Rattle.patterns_base.specs.declared.rule.Rule.TheVariants.{FoldToConstant, KeepItself, MirrorComparison};
ghost use Rattle.patterns_base.specs.declared.rule.Rule.TheVariants.{RegroupConstants, SwapConstant, ZeroRemainder};
ghost use Rattle.patterns_refinement.specs.Canonical.{CanonicalizationKeeps};
ghost use Rattle.patterns_refinement.specs.IndexCasts.{CastsBack};
ghost use Rattle.patterns_refinement.specs.Keeping.{KeepsComputing, KeepsReady};
ghost use Rattle.patterns_refinement.specs.Observing.{ShownWereThere};
ghost use Rattle.patterns_refinement.specs.ObservingSamples.{AreRefused};
ghost use Rattle.patterns_refinement.specs.Remainders.{ExpandsRemainders};
ghost use Rattle.patterns_refinement.specs.Runs.{KeptAreKept, RewritingKeeps, RunsKeep};
ghost use Rattle.patterns_refinement.specs.TracedRuns.{TracedCanonicalizationKeeps, TracedRewritingKeeps};

use greedy::laws::rewriting_by_its_rules_is_canonicalization;
use patterns_base::laws::only_listed_rules_apply;
use patterns_soundness::laws::no_edit_is_refused;

/// A dead operation is erased.
pub fn erase_dead()
    ensures ready { KeepsReady EraseDead }
    ensures computing { KeepsComputing EraseDead }
{
    no_edit_is_refused();
}

/// An operation over constants, or over a constant that alone decides the result, becomes a constant.
pub fn fold_to_constant()
    ensures ready { KeepsReady FoldToConstant }
    ensures computing { KeepsComputing FoldToConstant }
{
    no_edit_is_refused();
}

/// A constant first operand of a commutative operation becomes the second operand.
pub fn swap_constant()
    ensures ready { KeepsReady SwapConstant }
    ensures computing { KeepsComputing SwapConstant }
{
    no_edit_is_refused();
}

/// `addi(a, 0)` and similar operations become a.
pub fn drop_zero()
    ensures ready { KeepsReady DropZero }
    ensures computing { KeepsComputing DropZero }
{
    no_edit_is_refused();
}

/// `muli(a, 1)`, `divsi(a, 1)` and `divui(a, 1)` become a.
pub fn drop_one()
    ensures ready { KeepsReady DropOne }
    ensures computing { KeepsComputing DropOne }
{
    no_edit_is_refused();
}

/// `andi(a, -1)` becomes a.
pub fn drop_all_ones()
    ensures ready { KeepsReady DropAllOnes }
    ensures computing { KeepsComputing DropAllOnes }
{
    no_edit_is_refused();
}

/// `subi(a, a)` and `xori(a, a)` become 0.
pub fn cancel_itself()
    ensures ready { KeepsReady CancelItself }
    ensures computing { KeepsComputing CancelItself }
{
    no_edit_is_refused();
}

/// `andi(a, a)` and similar operations become a.
pub fn keep_itself()
    ensures ready { KeepsReady KeepItself }
    ensures computing { KeepsComputing KeepItself }
{
    no_edit_is_refused();
}

/// `remsi(a, 1)` and `remui(a, 1)` become 0.
pub fn zero_remainder()
    ensures ready { KeepsReady ZeroRemainder }
    ensures computing { KeepsComputing ZeroRemainder }
{
    no_edit_is_refused();
}

/// `(a op c) op d` with constants c and d becomes `a op (c op d)`.
pub fn regroup_constants()
    ensures ready { KeepsReady RegroupConstants }
    ensures computing { KeepsComputing RegroupConstants }
{
    no_edit_is_refused();
}

/// `subi(a, c)` with a constant c becomes `addi(a, -c)`.
pub fn add_negative()
    ensures ready { KeepsReady AddNegative }
    ensures computing { KeepsComputing AddNegative }
{
    no_edit_is_refused();
}

/// `cmpi(a, a)` becomes `true` or `false`, by its predicate.
pub fn compare_itself()
    ensures ready { KeepsReady CompareItself }
    ensures computing { KeepsComputing CompareItself }
{
    no_edit_is_refused();
}

/// A constant first operand of a comparison becomes the second, with the predicate mirrored.
pub fn mirror_comparison()
    ensures ready { KeepsReady MirrorComparison }
    ensures computing { KeepsComputing MirrorComparison }
{
    no_edit_is_refused();
}

/// `cmpi ult, a, 0` becomes `false`, and `cmpi uge, a, 0` becomes `true`.
pub fn compare_zero()
    ensures ready { KeepsReady CompareZero }
    ensures computing { KeepsComputing CompareZero }
{
    no_edit_is_refused();
}

/// `select(c, a, a)` becomes a.
pub fn choose_same()
    ensures ready { KeepsReady ChooseSame }
    ensures computing { KeepsComputing ChooseSame }
{
    no_edit_is_refused();
}

/// `select` with a constant condition becomes the selected operand.
pub fn choose_known()
    ensures ready { KeepsReady ChooseKnown }
    ensures computing { KeepsComputing ChooseKnown }
{
    no_edit_is_refused();
}

/// `select(c, true, false)` becomes c.
pub fn choose_truth()
    ensures ready { KeepsReady ChooseTruth }
    ensures computing { KeepsComputing ChooseTruth }
{
    no_edit_is_refused();
}

/// `select(xori(c, true), a, b)` becomes `select(c, b, a)`.
pub fn choose_opposite()
    ensures ready { KeepsReady ChooseOpposite }
    ensures computing { KeepsComputing ChooseOpposite }
{
    no_edit_is_refused();
}

/// An extension of an extension becomes a single extension.
pub fn extend_extension()
    ensures ready { KeepsReady ExtendExtension }
    ensures computing { KeepsComputing ExtendExtension }
{
    no_edit_is_refused();
}

/// A truncation of a truncation becomes a single truncation. A truncation of an extension to the original type becomes
/// the extended value.
pub fn cut_cast()
    ensures ready { KeepsReady CutCast }
    ensures computing { KeepsComputing CutCast }
{
    no_edit_is_refused();
}

/// A cast back to the original type becomes the original value. The refinement is proved for index casts. An unrealized
/// cast computes nothing in this model.
pub fn cast_back()
    ensures ready { KeepsReady CastBack }
    ensures computing { CastsBack }
{
    no_edit_is_refused();
}

/// `maxsi(a, b)` and similar operations become a comparison and a `select`.
pub fn expand_min_max()
    ensures ready { KeepsReady ExpandMinMax }
    ensures computing { KeepsComputing ExpandMinMax }
{
    no_edit_is_refused();
}

/// `subi(a, b)` becomes `a + ((b xor -1) + 1)`.
pub fn expand_difference()
    ensures ready { KeepsReady ExpandDifference }
    ensures computing { KeepsComputing ExpandDifference }
{
    no_edit_is_refused();
}

/// A remainder becomes a - (a / b) * b. The refinement is proved if the operation isn't an executed signed remainder of
/// the least value, or of poison, by -1.
pub fn expand_remainder()
    ensures ready { KeepsReady ExpandRemainder }
    ensures computing { ExpandsRemainders }
{
    no_edit_is_refused();
}

/// The laws refuse rewrites that change observable operations: a rewrite that erases everything, returns another
/// argument, erases a store, erases an operation of an unknown dialect, returns a new constant for another number, or
/// adds `nsw` to a sum that overflows. Each observable operation after a rewrite was there before it, with the same or
/// refined operands.
pub fn what_is_shown_is_kept()
    ensures refused { AreRefused }
    ensures there { ShownWereThere }
{}

/// If each rule of a list keeps modules ready and refines what they compute, so does each run of these rules.
pub fn runs_keep_what_is_computed()
    ensures { RunsKeep }
{}

/// If each rule of a list keeps modules ready and refines what they compute, so does rewriting by the list up to a
/// limit.
pub fn rewriting_keeps_what_is_computed()
    ensures { RewritingKeeps }
{}

/// Each rule of `kept_rules` keeps modules ready and refines what they compute.
pub fn listed_rules_keep_what_is_computed()
    ensures { KeptAreKept }
{
    no_edit_is_refused();
}

/// Canonicalization refines what a module computes, if the module has no unrealized casts and no loops or conditionals
/// of `scf`.
pub fn canonicalization_keeps_what_is_computed()
    ensures { CanonicalizationKeeps }
{
    no_edit_is_refused();
    only_listed_rules_apply();
    rewriting_by_its_rules_is_canonicalization();
}

/// Rewriting by rules refines what a module computes, if each rewrite of its trace is by a rule that refines. The same
/// holds for canonicalization, if each rewrite of its trace is by a listed rule.
pub fn traced_rewrites_refine()
    ensures rewriting { TracedRewritingKeeps }
    ensures canonicalization { TracedCanonicalizationKeeps }
{
    no_edit_is_refused();
    rewriting_by_its_rules_is_canonicalization();
}
