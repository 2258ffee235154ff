//! Theorems about plans.
ghost use Rattle.patterns_lowering.specs.Counts.{CountsAreMade};

/// The edits of a plan make exactly the counted number of operations.
pub fn counted_operations_are_made()
    ensures { CountsAreMade }
{}
