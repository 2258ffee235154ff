//! Carries out a rewrite plan.
ghost use Rattle.patterns_lowering.specs.RewriterCalls.{JournalAfter};
ghost use Rattle.patterns_lowering.specs.Held.{module_held};
ghost use Rattle.patterns.specs.Applied.{Applied};
ghost use Rattle.patterns.specs.Planned.{IsFree, WereCarried};
ghost use Rattle.user_patterns_apply.specs.Built.{BuiltIsOf};
ghost use Rattle.user_patterns_apply.specs.Planned.{planned_edits};

use crate::edits::edits_for;
use crate::match_pattern::PlacedBuild;
use ir_event::analysis::Analysis;
use ir_event::types::ids::OpId;
use ir_event::types::refusal::Refusal;
use patterns::limits::limit_reason;
use patterns_lowering::Bench;
use patterns_lowering::apply_edits::apply_edits;
use std::alloc::Global;

/// Makes the edits of a rewrite plan at operation `op`. A refusal leaves the module, its marks and the journal
/// unchanged. The precondition `free` says that the module accepts every edit, so only limits and memory can refuse the
/// plan.
///
/// Refusals, in order: `Full` if the new operations exceed a limit of the module; `IdsExhausted`; `Full` if the context
/// is full; `Memory`.
pub(crate) fn apply_plan<L: Analysis>(
    alloc: Global,
    bench: &mut Bench<L>,
    op: OpId,
    planned: &PlacedBuild,
) -> Result<(), Refusal>
    requires of { BuiltIsOf bench.old.transaction.ctx planned.now.built }
    requires free { IsFree (planned_edits bench.old.transaction.ctx (module_held bench.old.transaction).next op planned.now)
        (module_held bench.old.transaction) }
    ensures carried { WereCarried (planned_edits bench.old.transaction.ctx (module_held bench.old.transaction).next op planned.now)
        result (module_held bench.old.transaction) (module_held bench.new.transaction) bench.new.transaction.ctx }
    ensures stays { Applied L.meaning bench.old bench.new }
    ensures journal { JournalAfter L.meaning result bench.old bench.new }
{
    let world = bench.world();
    if let Some(refusal) = limit_reason(world, planned.built.made.len() as u64) {
        return Err(refusal);
    }
    let next = world.store.next_id();
    let edits = match edits_for(alloc, bench, next, op, planned) {
        Ok(edits) => edits,
        Err(refusal) => return Err(refusal),
    };
    bench.is_wellformed();
    match apply_edits(bench, &edits) {
        Ok(()) => Ok(()),
        Err(refusal) => Err(refusal),
    }
}
