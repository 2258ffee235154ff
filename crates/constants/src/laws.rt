//! A law of known values. A law is a function without effect whose contract states a theorem.
ghost use Rattle.std.specs.Prelude.{◌≡◌, ℕ, IsTrue};
ghost use Rattle.ir_event.specs.types.Words.{is_isolated};
ghost use Rattle.ir_event.specs.trees.Ids.{HasDistinctIds};
ghost use Rattle.ir_event.specs.trees.Meaning.{Operation};
ghost use Rattle.ir_event.specs.trees.Sites.{operands_visible};
ghost use Rattle.constants.specs.Facts.{Facts, look, AreLocal};
ghost use Rattle.constants.specs.Walk.{facts_of};

/// If operands dominate their operations, the values that a pass in order finds agree with the fold of each operation,
/// and no other values do.
pub fn the_walk_is_what_agrees_with_each_operation()
    ensures agrees { (t : Operation) → HasDistinctIds t → IsTrue (operands_visible is_isolated t)
        → AreLocal (look t) (facts_of t) }
    ensures alone { (t : Operation) (facts : Facts) → HasDistinctIds t → IsTrue (operands_visible is_isolated t)
        → AreLocal (look t) facts → (x : ℕ) → facts x ≡ facts_of t x }
{}
