//! Applies a user pattern.
ghost use Rattle.ir_event.specs.types.Things.{IsExtendedBy};
ghost use Rattle.conversion.specs.rewriter.Machine.{Change, IsFullSo};
ghost use Rattle.conversion.specs.rewriter.RewriterCalls.{Does, JournalAfter, Led, state_of};
ghost use Rattle.conversion.specs.patterns.runs.Interning.{IsFull};
ghost use Rattle.user_patterns_data.specs.Shapes.{pattern_model};
ghost use Rattle.mlir_work_transforms.specs.Applying.{applied_reply, applying_user_pattern};

use conversion::rewriter::Bench;
use conversion::rewriter::laws::led_benches_are_kept;
use ir_event::analysis::Analysis;
use ir_event::types::ids::OpId;
use ir_event::types::refusal::Refusal;
use std::alloc::Global;
use user_patterns_data::pattern::Pattern;

/// Applies a user pattern at an operation. Returns whether the pattern applied; if not, the module doesn't change.
///
/// Errors, in order: `NoSuchOp` if the operation isn't in the module; `Full`; `IdsExhausted`; `Full` if the context
/// is full; `Memory`.
pub fn apply_pattern<L: Analysis>(
    alloc: Global,
    bench: &mut Bench<L>,
    pattern: &Pattern,
    op: OpId,
) -> Result<bool, Refusal>
    ensures does { Does L.meaning (Change (applying_user_pattern (pattern_model pattern.now) op)) (applied_reply result) bench.old bench.new }
    ensures headroom { IsFullSo (IsFull bench.new.transaction.ctx) (state_of L.meaning bench.old) (applying_user_pattern (pattern_model pattern.now) op)
        (applied_reply result) }
    ensures led { Led L.meaning bench.old bench.new }
    ensures grows { IsExtendedBy bench.old.transaction.ctx bench.new.transaction.ctx }
    ensures journal { JournalAfter L.meaning result bench.old bench.new }
{
    led_benches_are_kept::<L>();
    greedy::own::apply::apply_pattern(alloc, bench, pattern, op)
}
