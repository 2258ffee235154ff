//! Laws of refined values: a poison value may become a number, and so may the values computed from it.
ghost use Rattle.patterns_refinement.specs.Better.{Monotone, OthersAreKinded, Settles};
ghost use Rattle.patterns_refinement.specs.FlagSamples.{SamplesBreak};
ghost use Rattle.patterns_refinement.specs.Improving.{RewritesComputeBetter};

use user_patterns_apply::laws::pattern_edits_are_accepted;

/// An arithmetic operation whose operands have the kinds that it needs is monotone: for refined operands it is defined
/// if it was defined, and its result is refined. A signed division of poison by -1 is excluded.
pub fn operations_give_no_less()
    ensures { Monotone }
{}

/// An operation whose result isn't an integer or `index` satisfies the premises of a ready module, unless it is a
/// `select`.
pub fn operations_of_other_types_are_kinded()
    ensures { OthersAreKinded }
{}

/// If each operation of a tree computes its result or a refinement of it, there are outcomes that fit the tree and
/// refine the given outcomes. Poison values are recomputed along their uses.
pub fn trees_settle()
    ensures { Settles }
{}

/// A well-formed module after a rewrite by a pattern that refines computes a refinement of what the module computed,
/// also if the root's outcome was poison.
pub fn rewrites_compute_no_less()
    ensures { RewritesComputeBetter }
{
    pattern_edits_are_accepted();
}

/// Samples of operands that break `nsw`, `nuw` and `exact`, and of operands that don't.
pub fn samples_break_flags()
    ensures { SamplesBreak }
{}
