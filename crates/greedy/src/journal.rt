//! Computes the operations at which a rule may apply differently after events of a rewriter's journal.
ghost use Rattle.std.specs.Prelude.{◌≡◌, IfErr, OnOk, drop};
ghost use Rattle.ir_event.specs.types.declared.refusal.Refusal.TheVariants.{Memory as NoMemory};
ghost use Rattle.patterns.specs.rewriter.Held.{module_at, module_held};
ghost use Rattle.greedy.specs.Listing.{TouchedUpTo};

use crate::affected::touched_by;
use ir_event::analysis::Analysis;
use ir_event::event::Event;
use ir_event::types::ids::OpId;
use ir_event::types::refusal::Refusal;
use patterns::rewriter::bench::Bench;

/// Returns the events of a journal from index `from` on.
fn events_from(journal: &[Event], from: usize) -> &[Event]
    ensures { result.now ≡ drop from journal.now }
{
    match journal.get(from..) {
        Some(events) => events,
        None => &[],
    }
}

/// Replaces `ops` with every operation of the rewriter's module, up to `passed` in pre-order, at which a rule of
/// canonicalization may apply differently than before the events of its journal from index `from` on. The list may hold
/// other operations too.
///
/// Errors: `Memory` if memory runs out. Then the contents of `ops` are unspecified.
pub fn touched<L: Analysis>(
    bench: &Bench<L>,
    from: usize,
    passed: OpId,
    ops: &mut Vec<OpId>,
) -> Result<(), Refusal>
    ensures ok { OnOk result (TouchedUpTo passed (module_at from bench.now.transaction) (module_held bench.now.transaction) ops.new.items) }
    ensures refused { IfErr result (λ e. e ≡ NoMemory) }
{
    bench.is_wellformed();
    touched_by(
        bench.world(),
        events_from(bench.journal(), from),
        passed,
        ops,
    )
}
