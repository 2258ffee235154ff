//! Carries out the plan of a rule.
ghost use Rattle.ir_event.specs.Modules.{module_meaning};
ghost use Rattle.patterns_lowering.specs.RewriterCalls.{JournalAfter};
ghost use Rattle.patterns_lowering.specs.Held.{module_held};
ghost use Rattle.patterns.specs.Applied.{Applied};
ghost use Rattle.patterns.specs.Planned.{IsFree, MadeIsOf, WereCarried, planned_edits};

use crate::apply_edits::apply_listed;
use crate::count::made_makes;
use crate::insertion_point::InsertionPoint;
use crate::limits::limit_reason;
use crate::make::edits_for;
use crate::plan::PlacedPlan;
use ir_event::analysis::Analysis;
use ir_event::types::ids::OpId;
use ir_event::types::refusal::Refusal;
use patterns_lowering::Bench;
use std::alloc::Global;

/// Carries out the plan of a rule at `op`. If it is refused, the module, its marks and the journal stay the same. No
/// edit of the plan is refused, except if memory runs out.
///
/// Errors, in order: `Full` if the plan would exceed the limit of operations; `IdsExhausted` if it would exceed the
/// limit of ids; `Full` if the context is full; `Memory` if memory runs out.
pub(crate) fn apply_plan<L: Analysis>(
    alloc: Global,
    bench: &mut Bench<L>,
    op: OpId,
    planned: PlacedPlan,
) -> Result<(), Refusal>
    requires of { MadeIsOf bench.old.transaction.ctx planned.made }
    requires free { IsFree (planned_edits bench.old.transaction.ctx (module_held bench.old.transaction).next op planned)
        (module_held bench.old.transaction) }
    ensures carried { WereCarried (planned_edits bench.old.transaction.ctx (module_held bench.old.transaction).next op planned) result
        (module_held bench.old.transaction) (module_held bench.new.transaction) bench.new.transaction.ctx }
    ensures stays { Applied L.meaning bench.old bench.new }
    ensures journal { JournalAfter L.meaning result bench.old bench.new }
{
    let world = bench.world();
    if let Some(refusal) = limit_reason(world, made_makes(&planned.made)) {
        return Err(refusal);
    }
    let site = InsertionPoint {
        point: planned.point,
        next: OpId::new(world.store.next_id()),
        op,
    };
    let edits = match edits_for(alloc, bench, &site, planned.made) {
        Ok(edits) => edits,
        Err(refusal) => return Err(refusal),
    };
    bench.is_wellformed();
    match apply_listed(alloc, bench, &site, edits) {
        Ok(()) => Ok(()),
        Err(refusal) => Err(refusal),
    }
}
