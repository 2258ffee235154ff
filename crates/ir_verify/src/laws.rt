//! A law of diagnostics. A law is a function without effect whose contract states a theorem.
ghost use Rattle.std.specs.Prelude.{◌≡◌, ℕ, List, map};
ghost use Rattle.ir_tree.specs.Meaning.{Operation};
ghost use Rattle.ir_verify.specs.Diagnostics.{diagnostics_of};
ghost use Rattle.ir_verify.specs.Pairs.{ArePairs, pair_row};

/// The diagnostics report has exactly one row for each pair of an operation and a reported rule, in ascending order by
/// operation and then by rule.
pub fn rows_are_of_the_pairs()
    ensures { (t : Operation) → (ps : List (ℕ × ℕ)) × (diagnostics_of t ≡ map pair_row ps) × ArePairs t ps }
{}
