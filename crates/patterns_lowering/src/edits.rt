//! Interns what a plan needs, and returns its edits.
ghost use Rattle.std.specs.Prelude.{◌≡◌, ◌≤◌, ◌+◌, IfOk, IfErr};
ghost use Rattle.ir_event.specs.trees.Limits.{most_next};
ghost use Rattle.ir_event.specs.trees.Meaning.{meaning};
ghost use Rattle.patterns_soundness.specs.base.Lowering.{marked};
ghost use Rattle.patterns_soundness.specs.base.Lists.{AllFit, edits_meaning};
ghost use Rattle.patterns_lowering.specs.Interning.{Added, IsCapacityRefusal};
ghost use Rattle.patterns_lowering.specs.Meanings.{lowering_meaning, operation_lowered};
ghost use Rattle.patterns_lowering.specs.Plans.{IsIndexed, IsIndexedChoice, IsIndexedLoop, LoweringIsOf};
ghost use Rattle.patterns_lowering.specs.Plans.{lowering_makes};
ghost use Rattle.patterns_lowering.specs.declared.plan.Lowering.TheVariants.{Loop, Choice};

use crate::Bench;
use crate::choices::choice_edits;
use crate::intern::interned;
use crate::loops::loop_edits;
use crate::operation::operation_edits;
use crate::plan::{Indexed, IndexedChoice, IndexedLoop, Lowering};
use ir_event::analysis::Analysis;
use ir_event::trees::place::Place;
use ir_event::types::refusal::Refusal;
use patterns_soundness::base::edit::Edit;
use std::alloc::Global;

/// Returns the edits that lower an `arith` operation.
fn operation<L: Analysis>(
    alloc: Global,
    bench: &mut Bench<L>,
    point: &Place,
    of: &Indexed,
) -> Result<Vec<Edit>, Refusal>
    requires of { IsIndexed bench.old.transaction.ctx of.now }
    requires headroom { bench.old.transaction.store.module_of.next
        + (marked of.now.index_operands.items + 1 + marked of.now.index_results.items) ≤ most_next }
    ensures edits { IfOk result (λ es. edits_meaning bench.new.transaction.ctx es.items
        ≡ operation_lowered bench.old.transaction.store.module_of.next point.now of.now.index_operands.items
        of.now.index_results.items (meaning bench.old.transaction.ctx of.now.op)) }
    ensures fits_in { IfOk result (λ es. AllFit bench.new.transaction.ctx es.items) }
    ensures refused { IfErr result (λ e. IsCapacityRefusal bench.new.transaction.ctx e) }
    ensures interned { Added L.meaning bench.old bench.new }
{
    bench.is_wellformed();
    let next = bench.world().store.next_id();
    let numbers = match interned(alloc, bench, &of.op) {
        Ok(numbers) => numbers,
        Err(refusal) => return Err(refusal),
    };
    bench.is_wellformed();
    match operation_edits(alloc, &bench.world().ctx, numbers, next, point, of) {
        Ok(edits) => Ok(edits),
        Err(_) => Err(Refusal::Memory),
    }
}

/// Returns the edits that lower a loop.
fn over_loop<L: Analysis>(
    alloc: Global,
    bench: &mut Bench<L>,
    point: &Place,
    of: &IndexedLoop,
) -> Result<Vec<Edit>, Refusal>
    requires of { IsIndexedLoop bench.old.transaction.ctx of.now }
    requires headroom { bench.old.transaction.store.module_of.next + lowering_makes (Loop of.now) ≤ most_next }
    ensures edits { IfOk result (λ es. edits_meaning bench.new.transaction.ctx es.items
        ≡ lowering_meaning bench.old.transaction.ctx bench.old.transaction.store.module_of.next point.now (Loop of.now)) }
    ensures fits_in { IfOk result (λ es. AllFit bench.new.transaction.ctx es.items) }
    ensures refused { IfErr result (λ e. IsCapacityRefusal bench.new.transaction.ctx e) }
    ensures interned { Added L.meaning bench.old bench.new }
{
    bench.is_wellformed();
    let next = bench.world().store.next_id();
    let numbers = match interned(alloc, bench, &of.of.op) {
        Ok(numbers) => numbers,
        Err(refusal) => return Err(refusal),
    };
    bench.is_wellformed();
    match loop_edits(alloc, &bench.world().ctx, numbers, next, point, of) {
        Ok(edits) => Ok(edits),
        Err(_) => Err(Refusal::Memory),
    }
}

/// Returns the edits that lower a choice.
fn over_choice<L: Analysis>(
    alloc: Global,
    bench: &mut Bench<L>,
    point: &Place,
    of: &IndexedChoice,
) -> Result<Vec<Edit>, Refusal>
    requires of { IsIndexedChoice bench.old.transaction.ctx of.now }
    requires headroom { bench.old.transaction.store.module_of.next + lowering_makes (Choice of.now) ≤ most_next }
    ensures edits { IfOk result (λ es. edits_meaning bench.new.transaction.ctx es.items
        ≡ lowering_meaning bench.old.transaction.ctx bench.old.transaction.store.module_of.next point.now (Choice of.now)) }
    ensures fits_in { IfOk result (λ es. AllFit bench.new.transaction.ctx es.items) }
    ensures refused { IfErr result (λ e. IsCapacityRefusal bench.new.transaction.ctx e) }
    ensures interned { Added L.meaning bench.old bench.new }
{
    bench.is_wellformed();
    let next = bench.world().store.next_id();
    let numbers = match interned(alloc, bench, &of.of.op) {
        Ok(numbers) => numbers,
        Err(refusal) => return Err(refusal),
    };
    bench.is_wellformed();
    match choice_edits(alloc, &bench.world().ctx, numbers, next, point, of) {
        Ok(edits) => Ok(edits),
        Err(_) => Err(Refusal::Memory),
    }
}

/// Returns the edits of a plan, and interns i64, index and the i64 integers that they need. The module, its marks and
/// the listeners stay the same.
///
/// Errors: `Full` if the context is full; `Memory`.
pub fn lowering_edits<L: Analysis>(
    alloc: Global,
    bench: &mut Bench<L>,
    point: &Place,
    plan: &Lowering,
) -> Result<Vec<Edit>, Refusal>
    requires of { LoweringIsOf bench.old.transaction.ctx plan.now }
    requires headroom { bench.old.transaction.store.module_of.next + lowering_makes plan.now ≤ most_next }
    ensures edits { IfOk result (λ es. edits_meaning bench.new.transaction.ctx es.items
        ≡ lowering_meaning bench.old.transaction.ctx bench.old.transaction.store.module_of.next point.now plan.now) }
    ensures fits_in { IfOk result (λ es. AllFit bench.new.transaction.ctx es.items) }
    ensures refused { IfErr result (λ e. IsCapacityRefusal bench.new.transaction.ctx e) }
    ensures interned { Added L.meaning bench.old bench.new }
{
    match plan {
        Lowering::Operation(of) => operation(alloc, bench, point, of),
        Lowering::Loop(of) => over_loop(alloc, bench, point, of),
        Lowering::Choice(of) => over_choice(alloc, bench, point, of),
    }
}
