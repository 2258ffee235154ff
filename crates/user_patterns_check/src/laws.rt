//! Laws of outcomes.
ghost use Rattle.user_patterns_check.specs.Folded.{CastsGive, ChoicesGive, ComparisonsGive, FoldsGive, IndexCastsGive};
ghost use Rattle.user_patterns_check.specs.Kept.{StaysDefined, StaysTheValue};

use dialects_int::fold_laws::folds_of_known_operands;

/// If a step has a value, the fold of its operation over the known operands gives that value.
pub fn folds_give_outcomes()
    ensures pairs { FoldsGive }
    ensures comparisons { ComparisonsGive }
    ensures choices { ChoicesGive }
    ensures casts { CastsGive }
    ensures index_casts { IndexCastsGive }
{
    folds_of_known_operands();
}

/// If a pattern refines at some values and its old steps are defined, its new steps are defined too. If the old result
/// is a number, the new result is the same number.
pub fn what_is_kept()
    ensures defined { StaysDefined }
    ensures value { StaysTheValue }
{}
