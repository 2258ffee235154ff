//! After `apply`, `rewrite` and `canon`, an observer sees a refinement of what an observer saw before. A module without
//! diagnostics satisfies the premises.
ghost use Rattle.patterns_refinement.specs.Choices.{MayStandForThemselves};
ghost use Rattle.patterns_refinement.specs.ChoiceSamples.{ChoiceIsRefined};
ghost use Rattle.patterns_refinement.specs.Refining.{ApplyRefines, CanonRefines, KeptIsRefined, RewriteRefines};
ghost use Rattle.patterns_refinement.specs.RefiningSamples.{SampleIsRefined, SamplesArentRefined};
ghost use Rattle.patterns_refinement.specs.Verified.{VerifiedIsReady};
ghost use Rattle.patterns_refinement.specs.Unique.{OutcomesAreUnique};

use crate::rule_refinement::canonicalization_keeps_what_is_computed;
use crate::strict::listed_rules_and_patterns_keep_what_is_computed;

/// A module for which `report diagnostics` has no row is ready, if its arithmetic operations are on integers and
/// `index`.
pub fn modules_without_diagnostics_are_ready()
    ensures { VerifiedIsReady }
{}

/// For all outcomes of the values that a module doesn't compute, an observer sees the same operations in the same order
/// after `apply`, `rewrite` and `canon`. Each operand is the same or refined.
pub fn observed_operations_are_refined()
    ensures apply { ApplyRefines }
    ensures rewrite { RewriteRefines }
    ensures canon { CanonRefines }
    ensures kept { KeptIsRefined }
{
    canonicalization_keeps_what_is_computed();
    listed_rules_and_patterns_keep_what_is_computed();
}

/// A sample module has a store, a call, a return and an operation at which a rule applies. The rewrites that erase
/// everything, return another argument or erase the store are no refinements. Another sample stores to the result of a
/// `select` of memrefs (`choice`): after `choose-same`, it stores to the memref that was chosen. A store to the other
/// memref is no refinement.
pub fn a_sample_is_refined()
    ensures refined { SampleIsRefined }
    ensures refused { SamplesArentRefined }
    ensures choice { ChoiceIsRefined }
{}

/// Two assignments that fit a well-formed module are equal, if they agree on all values that the module doesn't
/// compute.
pub fn outcomes_are_unique()
    ensures { OutcomesAreUnique }
{}

/// In a well-formed module, each value may represent itself, unless an arithmetic operation or a choice gives it. So if
/// such a value is an operand of an observed operation, it is the same value after a rewrite.
pub fn values_may_stand_for_themselves()
    ensures { MayStandForThemselves }
{}
