//! Applies a rule at an operation.
ghost use Rattle.std.specs.Prelude.{◌≡◌, false, IfOk, IfErr, OnErr, Err};
ghost use Rattle.ir_event.specs.types.declared.refusal.Refusal.TheVariants.{NoSuchOp};
ghost use Rattle.ir_event.specs.trees.Ids.{has_id};
ghost use Rattle.patterns_lowering.specs.RewriterCalls.{JournalAfter};
ghost use Rattle.patterns_lowering.specs.Held.{module_held};
ghost use Rattle.patterns_soundness.specs.base.Rewrites.{rewrite_of};
ghost use Rattle.patterns.specs.Applied.{Applied, RewriteOutcome, IsReason};

use crate::apply_plan::apply_plan;
use crate::plan::find_plan;
use ir_event::analysis::Analysis;
use ir_event::types::ids::OpId;
use ir_event::types::refusal::Refusal;
use patterns_lowering::Bench;
use patterns_soundness::base::rule::Rule;
use patterns_soundness::laws::no_edit_is_refused;
use std::alloc::Global;

/// Applies `rule` at `op` and returns whether it applied. If it didn't, the module, its marks and the journal stay the
/// same.
///
/// Errors, in order: `NoSuchOp` if the operation isn't in the module; `Full` if the rewrite would exceed the limit of
/// operations; `IdsExhausted` if it would exceed the limit of ids; `Full` if the context is full; `Memory` if memory
/// runs out.
pub fn apply<L: Analysis>(
    alloc: Global,
    bench: &mut Bench<L>,
    rule: Rule,
    op: OpId,
) -> Result<bool, Refusal>
    ensures there { has_id op (module_held bench.old.transaction).tree ≡ false → result ≡ Err NoSuchOp }
    ensures ok { IfOk result (λ done. RewriteOutcome (rewrite_of rule (module_held bench.old.transaction) op) done
        (module_held bench.old.transaction) (module_held bench.new.transaction)) }
    ensures err { OnErr result (module_held bench.new.transaction ≡ module_held bench.old.transaction) }
    ensures refused { IfErr result (λ e. IsReason (rewrite_of rule (module_held bench.old.transaction) op) op
        (module_held bench.old.transaction) bench.new.transaction.ctx e) }
    ensures stays { Applied L.meaning bench.old bench.new }
    ensures journal { JournalAfter L.meaning result bench.old bench.new }
{
    no_edit_is_refused();
    bench.is_wellformed();
    let world = bench.world();
    if !world.store.in_tree(op) {
        return Err(Refusal::NoSuchOp);
    }
    let Ok(found) = find_plan(alloc, world, rule, op) else {
        return Err(Refusal::Memory);
    };
    let Some(planned) = found else {
        return Ok(false);
    };
    match apply_plan(alloc, bench, op, planned) {
        Ok(()) => Ok(true),
        Err(refusal) => Err(refusal),
    }
}
