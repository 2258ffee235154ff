//! Laws of operation names and of matches.
ghost use Rattle.user_patterns_data.specs.Matching.{PatternOpsAreValid};
ghost use Rattle.user_patterns_data.specs.Names.{NamesFold};
ghost use Rattle.user_patterns_data.specs.Samples.{Planned, PlannedNot};

/// The operations of a pattern fold as its steps compute.
pub fn names_fold()
    ensures { NamesFold }
{}

/// A match keeps the values that were bound before.
pub fn matching_keeps_values()
    ensures { PatternOpsAreValid }
{}

/// A pattern in a small tree rewrites a product to a shift.
pub fn a_product_becomes_a_shift()
    ensures planned { Planned }
    ensures nothing { PlannedNot }
{}
