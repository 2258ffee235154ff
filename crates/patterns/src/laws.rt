//! Theorems about the rules: rules on values keep values, and no edit of any rule is refused. Each is a function that
//! does nothing; its contract states the theorem.
ghost use Rattle.patterns.specs.FirstMatching.{FirstMatchingIsFirst};

pub use patterns_laws::laws::{
    add_negative, cancel_itself, cast_back, choose_known, choose_opposite, choose_same,
    choose_truth, compare_itself, compare_zero, cut_cast, drop_all_ones, drop_one, drop_zero,
    expand_difference, expand_min_max, expand_remainder, extend_extension, fold_to_constant,
    keep_itself, lower_index, mirror_comparison, regroup_constants, swap_constant, zero_remainder,
};
pub use patterns_soundness::laws::no_edit_is_refused;

/// The rewrite of the first rule that applies is the rewrite by the list of rules.
pub fn the_rule_that_fires_is_the_first()
    ensures { FirstMatchingIsFirst }
{}
