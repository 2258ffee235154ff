//! Erases the private symbols that nothing reaches.
ghost use Rattle.std.specs.Prelude.{◌≡◌, ◌⊎◌, reverse, IfErr, OnErr, OnOk};
ghost use Rattle.ir_event.specs.types.declared.refusal.Refusal.TheVariants.{HasUses, Memory};
ghost use Rattle.conversion.specs.rewriter.Machine.{Change};
ghost use Rattle.conversion.specs.rewriter.RewriterCalls.{Does, Journaled, JournalAfter, Led};
ghost use Rattle.conversion.specs.Runs.{Noted};
ghost use Rattle.mlir_work_transforms.specs.Erasing.{Erases};
ghost use Rattle.mlir_work_transforms.specs.Sweep.{sweep_reply, sweeping};

use conversion::rewriter::Bench;
use conversion::rewriter::finish::close_mark;
use conversion::rewriter::laws::led_benches_are_kept;
use ir_event::analysis::Analysis;
use ir_event::types::ids::OpId;
use ir_event::types::refusal::Refusal;
use listeners::list::unreached;
use std::alloc::Global;

/// Erases operations from the last of the list to the first, and stops at the first refusal.
fn erase_each<L: Analysis>(bench: &mut Bench<L>, ops: &mut Vec<OpId>) -> Result<(), Refusal>
    ensures erases { Erases (reverse ops.old.items) result bench.old.transaction bench.new.transaction }
    ensures led { Led L.meaning bench.old bench.new }
    ensures journal { OnOk result (Journaled L.meaning bench.old bench.new) }
    ensures noted { OnErr result (Noted bench.old.transaction bench.new.transaction) }
{
    led_benches_are_kept::<L>();
    bench.is_wellformed();
    'ops: while let Some(op) = ops.pop() {
        if let Err(refusal) = bench.erase(op) {
            return Err(refusal);
        }
    }
    Ok(())
}

/// Erases the private symbol definitions that nothing reaches, in reverse pre-order (Symbols and Symbol Tables,
/// "Symbol Visibility"). Returns their number. Atomic: a refused call changes nothing.
///
/// Errors: `HasUses` if a result of a swept operation is used outside it; `Memory`.
pub fn sweep<L: Analysis>(alloc: Global, bench: &mut Bench<L>) -> Result<usize, Refusal>
    ensures does { Does L.meaning (Change sweeping) (sweep_reply result) bench.old bench.new }
    ensures refused { IfErr result (λ refusal. (refusal ≡ HasUses) ⊎ (refusal ≡ Memory)) }
    ensures led { Led L.meaning bench.old bench.new }
    ensures ctx { bench.new.transaction.ctx ≡ bench.old.transaction.ctx }
    ensures journal { JournalAfter L.meaning result bench.old bench.new }
{
    led_benches_are_kept::<L>();
    bench.is_wellformed();
    let mut ops = match unreached(alloc, bench.world()) {
        Ok(ops) => ops,
        Err(refusal) => return Err(refusal),
    };
    let count = ops.len();
    if let Err(refusal) = bench.step() {
        return Err(refusal);
    }
    match erase_each(bench, &mut ops) {
        Ok(()) => {
            close_mark(bench, true);
            Ok(count)
        }
        Err(refusal) => {
            close_mark(bench, false);
            Err(refusal)
        }
    }
}
