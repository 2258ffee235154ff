//! Canonicalizes one operation.
ghost use Rattle.std.specs.Prelude.{◌≡◌, [], IfErr, IfOk, MatchResult, OnErr};
ghost use Rattle.ir_event.specs.types.Things.{IsExtendedBy};
ghost use Rattle.conversion.specs.Runs.{Noted};
ghost use Rattle.conversion.specs.patterns.runs.Interning.{IsFull};
ghost use Rattle.conversion.specs.rewriter.RewriterCalls.{Does, Led, state_of};
ghost use Rattle.conversion.specs.rewriter.Machine.{Change, IsFullSo};
ghost use Rattle.conversion.specs.rewriter.Moves.{Recorded};
ghost use Rattle.greedy.specs.Changes.{canonical_reply};
ghost use Rattle.mlir_work_transforms.specs.At.{canonicalizing_at};
ghost use Rattle.mlir_work_transforms.specs.AtRuns.{IsCanonicalAt, IsReasonAt};

use conversion::rewriter::Bench;
use conversion::rewriter::laws::led_benches_are_kept;
use greedy::greedy_rewriter::GreedyRewriter;
use greedy::outcome::Outcome;
use greedy::pattern_set::{Entries, PatternSet};
use greedy::run::run;
use greedy::tracer::NoTracer;
use ir_event::analysis::Analysis;
use ir_event::types::ids::OpId;
use ir_event::types::refusal::Refusal;
use std::alloc::Global;

/// Canonicalizes one operation of the module up to `limit` rewrites. If it is refused, the module doesn't change.
fn rewrites<R: GreedyRewriter>(
    alloc: Global,
    bench: &mut R,
    op: OpId,
    limit: u32,
) -> Result<Outcome, Refusal>
    ensures ok { IfOk result (λ o. IsCanonicalAt limit op (R.held bench.old) o (R.held bench.new)) }
    ensures err { OnErr result (R.held bench.new ≡ R.held bench.old) }
    ensures refused { IfErr result (λ e. IsReasonAt limit op (R.held bench.old) (R.full bench.new) e) }
    ensures marks { R.marks bench.new ≡ R.marks bench.old }
    ensures journal { MatchResult result (λ _. Noted (R.transaction bench.old) (R.transaction bench.new))
        (λ _. Recorded [] (R.transaction bench.old) (R.transaction bench.new)) }
    ensures onward { R.onward bench.old bench.new }
{
    if limit < 1 || limit > 1_000_000 {
        return Err(Refusal::BadLimit);
    }
    if !bench.in_tree(op) {
        return Err(Refusal::NoSuchOp);
    }
    let pattern_set = PatternSet {
        entries: Entries::Canonicalization,
        at: Some(op),
    };
    run(alloc, bench, &pattern_set, limit, &mut NoTracer)
}

/// Canonicalizes one operation of the module: applies the highest-priority canonicalization rule that matches there,
/// repeatedly, until no rule matches, the operation is erased or the limit is reached. Atomic: a refused call changes
/// nothing.
///
/// Errors, in order: `BadLimit` if the limit isn't from 1 to 1,000,000; `NoSuchOp` if the operation isn't in the
/// module; `Full` and `IdsExhausted` if a rewrite is refused with them; `Full` if the context is full; `Memory`.
pub fn canonicalize_at<L: Analysis>(
    alloc: Global,
    bench: &mut Bench<L>,
    op: OpId,
    limit: u32,
) -> Result<Outcome, Refusal>
    ensures does { Does L.meaning (Change (canonicalizing_at limit op)) (canonical_reply result) bench.old bench.new }
    ensures headroom { IsFullSo (IsFull bench.new.transaction.ctx) (state_of L.meaning bench.old) (canonicalizing_at limit op)
        (canonical_reply result) }
    ensures led { Led L.meaning bench.old bench.new }
    ensures grows { IsExtendedBy bench.old.transaction.ctx bench.new.transaction.ctx }
    ensures journal { MatchResult result (λ _. Noted bench.old.transaction bench.new.transaction)
        (λ _. Recorded [] bench.old.transaction bench.new.transaction) }
{
    led_benches_are_kept::<L>();
    bench.is_wellformed();
    rewrites(alloc, bench, op, limit)
}
