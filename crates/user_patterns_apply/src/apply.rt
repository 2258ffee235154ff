//! Applies a user pattern at an operation.
ghost use Rattle.std.specs.Prelude.{◌≡◌, false, IfOk, IfErr, OnErr, Err};
ghost use Rattle.ir_event.specs.types.declared.refusal.Refusal.TheVariants.{NoSuchOp};
ghost use Rattle.ir_event.specs.trees.Ids.{has_id};
ghost use Rattle.patterns_lowering.specs.RewriterCalls.{JournalAfter};
ghost use Rattle.patterns_lowering.specs.Held.{module_held};
ghost use Rattle.patterns.specs.Applied.{Applied, RewriteOutcome, IsReason};
ghost use Rattle.user_patterns_data.specs.Shapes.{pattern_model};
ghost use Rattle.user_patterns_apply.specs.Own.{user_pattern_rewrite};

use crate::apply_plan::apply_plan;
use crate::laws::pattern_edits_are_accepted;
use crate::match_pattern::find_plan;
use ir_event::analysis::Analysis;
use ir_event::types::ids::OpId;
use ir_event::types::refusal::Refusal;
use patterns_lowering::Bench;
use std::alloc::Global;
use user_patterns_data::pattern::Pattern;

/// Applies `pattern` at operation `op` and returns whether the pattern applied. A refusal leaves the module, its marks
/// and the journal unchanged.
///
/// Refusals, in order: `NoSuchOp` if the operation isn't in the module; `Full` if the new operations exceed a limit of
/// the module; `IdsExhausted`; `Full` if the context is full; `Memory`.
pub fn apply_pattern<L: Analysis>(
    alloc: Global,
    bench: &mut Bench<L>,
    pattern: &Pattern,
    op: OpId,
) -> Result<bool, Refusal>
    ensures there { has_id op (module_held bench.old.transaction).tree ≡ false → result ≡ Err NoSuchOp }
    ensures ok { IfOk result (λ done. RewriteOutcome (user_pattern_rewrite (pattern_model pattern.now) (module_held bench.old.transaction) op) done
        (module_held bench.old.transaction) (module_held bench.new.transaction)) }
    ensures err { OnErr result (module_held bench.new.transaction ≡ module_held bench.old.transaction) }
    ensures refused { IfErr result (λ e. IsReason (user_pattern_rewrite (pattern_model pattern.now) (module_held bench.old.transaction) op) op
        (module_held bench.old.transaction) bench.new.transaction.ctx e) }
    ensures stays { Applied L.meaning bench.old bench.new }
    ensures journal { JournalAfter L.meaning result bench.old bench.new }
{
    pattern_edits_are_accepted();
    bench.is_wellformed();
    let world = bench.world();
    if !world.store.in_tree(op) {
        return Err(Refusal::NoSuchOp);
    }
    let Ok(found) = find_plan(alloc, world, pattern, op) else {
        return Err(Refusal::Memory);
    };
    let Ok(planned) = found else {
        return Ok(false);
    };
    match apply_plan(alloc, bench, op, &planned) {
        Ok(()) => Ok(true),
        Err(refusal) => Err(refusal),
    }
}
