//! Counts the operations that rules make.
ghost use Rattle.std.specs.Prelude.{◌≡◌, ◌≤◌, length};
ghost use Rattle.patterns.specs.Making.{all_make, edit_makes, large_makes, made_makes, plan_makes};
ghost use Rattle.patterns.specs.Planned.{IsOfSome};

use crate::plan::RulePlan;
use patterns_lowering::count::lowering_makes;
use patterns_lowering::edit::Edit;
use patterns_plans::reads::plan::{LargePlan, RewritePlan};

/// Returns the number of operations that an edit makes.
fn edit_makes(edit: &Edit) -> u64
    ensures count { result ≡ edit_makes edit.now }
    ensures few { result ≤ 1 }
{
    match edit {
        Edit::Make { .. } => 1,
        _ => 0,
    }
}

/// Returns the number of operations that some edits make.
fn all_make(edits: &[Edit]) -> u64
    ensures { result ≡ all_make edits.now }
{
    let mut count = 0;
    let mut rest = edits;
    'edits: while let [edit, tail @ ..] = rest {
        count += edit_makes(edit);
        rest = tail;
    }
    count
}

/// Returns the number of operations that a large plan makes.
fn large_makes(plan: &LargePlan) -> u64
    ensures { result ≡ large_makes plan.now }
{
    match plan {
        LargePlan::CombinedConstant { .. } => 2,
        LargePlan::SwapComparison { .. } => 0,
        LargePlan::CompareAndSelect { .. } => 2,
        LargePlan::Difference { .. } => 5,
        LargePlan::Remainder { .. } => 3,
    }
}

/// Returns the number of operations that a plan makes.
fn plan_makes(plan: &RewritePlan) -> u64
    ensures { result ≡ plan_makes plan.now }
{
    match plan {
        RewritePlan::Erase => 0,
        RewritePlan::Give { .. } => 0,
        RewritePlan::Edits(edits) => all_make(edits),
        RewritePlan::Constant { .. } => 1,
        RewritePlan::Cast { .. } => 1,
        RewritePlan::Large(plan) => large_makes(&**plan),
    }
}

/// Returns the number of operations that the plan of a rule makes.
pub(crate) fn made_makes(made: &RulePlan) -> u64
    requires { IsOfSome made.now }
    ensures { result ≡ made_makes made.now }
{
    match made {
        RulePlan::Rewrite(plan) => plan_makes(plan),
        RulePlan::Lowering(lowering) => lowering_makes(&**lowering),
    }
}
