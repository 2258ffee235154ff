//! Laws of rewrite plans. A law is a function without effect whose contract states a theorem.
ghost use Rattle.patterns_refinement.specs.After.{RewrittenComputes};
ghost use Rattle.patterns_refinement.specs.Applied.{CheckedPlansGo, PlansGo};
ghost use Rattle.patterns_refinement.specs.Applying.{CheckedKeepsThere, RewritesCompute};
ghost use Rattle.patterns_refinement.specs.Samples.{SampleIsChecked, SampleIsKept};

/// If a pattern matches and refines at the types at hand, all its new operations are defined, and its result refines
/// the root's result. `checked` takes the refinement from a check up to some width.
pub fn plans_keep_what_is_computed()
    ensures plans { PlansGo }
    ensures checked { CheckedPlansGo }
{}

/// If such a pattern is applied and the root's outcome is known, the rewritten tree computes what the tree computed.
pub fn rewritten_trees_compute_the_same()
    ensures { RewrittenComputes }
{}

/// A well-formed module after such a rewrite computes what the module computed. `checked` takes the refinement from a
/// check up to some width.
pub fn rewrites_keep_what_is_computed()
    ensures rewrites { RewritesCompute }
    ensures checked { CheckedKeepsThere }
{}

/// A sample pattern and tree satisfy all premises of these laws: a product of two bits by 2 becomes a shift. `checked`
/// has a check up to two bits and a pattern whose type variable has two numbers.
pub fn a_sample_is_kept()
    ensures kept { SampleIsKept }
    ensures checked { SampleIsChecked }
{}
