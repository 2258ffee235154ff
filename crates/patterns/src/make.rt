//! Turns plans into edits.
ghost use Rattle.std.specs.Prelude.{◌≡◌, ◌+◌, ◌≤◌, IfOk, IfErr};
ghost use Rattle.ir_event.specs.trees.Limits.{most_next};
ghost use Rattle.patterns_plans.specs.reads.Plans.{LargeIsOf, PlanIsOf, large_meaning, plan_meaning};
ghost use Rattle.patterns_lowering.specs.Interning.{Added, IsCapacityRefusal};
ghost use Rattle.patterns.specs.Making.{EditsDenote, large_makes, listed_edits, made_makes, plan_makes};
ghost use Rattle.patterns.specs.Planned.{MadeIsOf, made_edits};

use crate::insertion_point::InsertionPoint;
use crate::plan::RulePlan;
use crate::plan_edits::PlanEdits;
use crate::plans::{choice, combination, constant, difference, mirrored, recast, remainder};
use ir_event::analysis::Analysis;
use ir_event::types::refusal::Refusal;
use patterns_lowering::Bench;
use patterns_lowering::edit::Edit;
use patterns_lowering::edits::lowering_edits;
use patterns_plans::reads::plan::{LargePlan, RewritePlan};
use std::alloc::Global;

/// Returns the edits of a large plan at a site, and interns the names, types and attributes that they need. The module
/// stays the same. There must be enough free ids.
///
/// Errors: `Full` if the context is full; `Memory` if memory runs out.
fn large_edits<L: Analysis>(
    alloc: Global,
    bench: &mut Bench<L>,
    site: &InsertionPoint,
    plan: &LargePlan,
) -> Result<Vec<Edit>, Refusal>
    requires of { LargeIsOf bench.old.transaction.ctx plan.now }
    requires headroom { site.now.next + large_makes plan.now ≤ most_next }
    ensures stands { IfOk result (λ es. EditsDenote bench.new.transaction.ctx es.items
        (large_meaning bench.old.transaction.ctx site.now.next site.now.op site.now.point plan.now)) }
    ensures refused { IfErr result (λ e. IsCapacityRefusal bench.new.transaction.ctx e) }
    ensures added { Added L.meaning bench.old bench.new }
{
    match plan {
        LargePlan::CombinedConstant {
            name,
            ty,
            value,
            bits,
        } => combination(alloc, bench, site, *name, *ty, value, *bits),
        LargePlan::SwapComparison {
            predicate,
            first,
            second,
        } => mirrored(alloc, bench, site, *predicate, first, second),
        LargePlan::CompareAndSelect {
            predicate,
            ty,
            first,
            second,
        } => choice(alloc, bench, site, *predicate, *ty, first, second),
        LargePlan::Difference {
            ty,
            first,
            second,
            ones,
        } => difference(alloc, bench, site, *ty, first, second, *ones),
        LargePlan::Remainder {
            division,
            ty,
            first,
            second,
        } => remainder(alloc, bench, site, *division, *ty, first, second),
    }
}

/// Returns the edits of a rewrite plan at a site, and interns the names, types and attributes that they need. The
/// module stays the same. There must be enough free ids.
///
/// Errors: `Full` if the context is full; `Memory` if memory runs out.
fn plan_edits<L: Analysis>(
    alloc: Global,
    bench: &mut Bench<L>,
    site: &InsertionPoint,
    plan: RewritePlan,
) -> Result<PlanEdits, Refusal>
    requires of { PlanIsOf bench.old.transaction.ctx plan }
    requires headroom { site.now.next + plan_makes plan ≤ most_next }
    ensures stands { IfOk result (λ es. EditsDenote bench.new.transaction.ctx (listed_edits site.now es)
        (plan_meaning bench.old.transaction.ctx site.now.next site.now.op site.now.point plan)) }
    ensures refused { IfErr result (λ e. IsCapacityRefusal bench.new.transaction.ctx e) }
    ensures added { Added L.meaning bench.old bench.new }
{
    match plan {
        RewritePlan::Erase => Ok(PlanEdits::Erase),
        RewritePlan::Give { value } => Ok(PlanEdits::Give(value)),
        RewritePlan::Edits(edits) => Ok(PlanEdits::List(edits)),
        RewritePlan::Constant { ty, bits } => match constant(bench, site, ty, bits) {
            Ok(edits) => Ok(edits),
            Err(refusal) => Err(refusal),
        },
        RewritePlan::Cast { name, ty, value } => Ok(recast(bench, site, name, ty, value)),
        RewritePlan::Large(plan) => match large_edits(alloc, bench, site, &*plan) {
            Ok(edits) => Ok(PlanEdits::List(edits)),
            Err(refusal) => Err(refusal),
        },
    }
}

/// Returns the edits of a rule's plan at a site, and interns the names, types and attributes that they need. The
/// module stays the same. There must be enough free ids.
///
/// Errors: `Full` if the context is full; `Memory` if memory runs out.
pub(crate) fn edits_for<L: Analysis>(
    alloc: Global,
    bench: &mut Bench<L>,
    site: &InsertionPoint,
    made: RulePlan,
) -> Result<PlanEdits, Refusal>
    requires of { MadeIsOf bench.old.transaction.ctx made }
    requires next { site.now.next ≡ bench.old.transaction.store.module_of.next }
    requires headroom { site.now.next + made_makes made ≤ most_next }
    ensures stands { IfOk result (λ es. EditsDenote bench.new.transaction.ctx (listed_edits site.now es)
        (made_edits bench.old.transaction.ctx site.now.next site.now.op site.now.point made)) }
    ensures refused { IfErr result (λ e. IsCapacityRefusal bench.new.transaction.ctx e) }
    ensures added { Added L.meaning bench.old bench.new }
{
    match made {
        RulePlan::Rewrite(plan) => plan_edits(alloc, bench, site, plan),
        RulePlan::Lowering(lowering) => match lowering_edits(
            alloc,
            bench,
            &site.point,
            &*lowering,
        ) {
            Ok(edits) => Ok(PlanEdits::List(edits)),
            Err(refusal) => Err(refusal),
        },
    }
}
