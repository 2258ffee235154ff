//! Rewriting of a rewriter's module.
ghost use Rattle.std.specs.Prelude.{[], IfErr, MatchResult, OnOk};
ghost use Rattle.ir_event.specs.types.Things.{IsExtendedBy};
ghost use Rattle.rewriter_machine.specs.Machine.{Change, IsFullSo};
ghost use Rattle.patterns.specs.rewriter.Moves.{Recorded};
ghost use Rattle.patterns.specs.runs.Runs.{Noted};
ghost use Rattle.patterns.specs.RewriterCalls.{Does, Led, state_of};
ghost use Rattle.patterns.specs.Held.{module_held};
ghost use Rattle.patterns.specs.runs.Interning.{IsFull};
ghost use Rattle.greedy.specs.Changes.{canonical_reply, rewriting};
ghost use Rattle.greedy.specs.Outcomes.{IsReasonBy};
ghost use Rattle.greedy.specs.Ruled.{MayTry, pattern_set_of};
ghost use Rattle.greedy.specs.Tracing.{trace_of};

use crate::applied_rewrite::AppliedPattern;
use crate::first::apply_first;
use crate::greedy_rewriter::GreedyRewriter;
use crate::journal::touched;
use crate::outcome::Outcome;
use crate::pattern_set::{Entries, PatternSet};
use crate::run::run;
use crate::tracer::Tracer;
use crate::walk::{following, is_beyond, precedes, preceding};
use ir_event::analysis::Analysis;
use ir_event::types::ids::OpId;
use ir_event::types::refusal::Refusal;
use patterns::rewriter::Bench;
use patterns::rewriter::finish::close_mark;
use patterns::rewriter::laws::led_benches_are_kept;
use std::alloc::Global;

impl<L: Analysis> GreedyRewriter for Bench<L> {
    ghost use Rattle.std.specs.Prelude.{length};
    ghost use Rattle.patterns.specs.Held.{module_at, module_held, open_marks};
    ghost use Rattle.patterns.specs.runs.Interning.{IsFull};
    ghost use Rattle.greedy.specs.Benches.{Wellformed, Onward};
    ghost use Rattle.greedy.specs.Lawful.{full_stays, onward_stays, onward_through};

    ghost held = { λ b. module_held b.transaction };

    ghost marks = { λ b. open_marks b.transaction };

    ghost events = { λ b. length b.transaction.journal };

    ghost before = { λ b k. module_at k b.transaction };

    ghost transaction = { λ b. b.transaction };

    ghost wellformed = { Wellformed };

    ghost distinct = { λ m f. f.distinct };

    ghost below = { λ m f. f.below };

    ghost onward = { Onward L.meaning };

    ghost stays = { λ b. onward_stays L.meaning b };

    ghost through = { λ a b d f g. onward_through L.meaning a b d f g };

    ghost full = { λ b. IsFull b.transaction.ctx };

    ghost stays_full = { λ a b o f. full_stays a.transaction.ctx b.transaction.ctx o.grows f };

    fn is_wellformed(&self) {
        Bench::is_wellformed(self);
    }

    fn root(&self) -> OpId {
        Bench::is_wellformed(self);
        self.world().store.root()
    }

    fn in_tree(&self, op: OpId) -> bool {
        self.world().store.in_tree(op)
    }

    fn precedes(&self, op: OpId, other: OpId) -> bool {
        Bench::is_wellformed(self);
        precedes(&self.world().store, op, other)
    }

    fn is_beyond(&self, op: OpId, other: OpId) -> bool {
        Bench::is_wellformed(self);
        is_beyond(&self.world().store, op, other)
    }

    fn following(&self, op: OpId) -> Option<OpId> {
        Bench::is_wellformed(self);
        following(&self.world().store, op)
    }

    fn preceding(&self, op: OpId) -> Option<OpId> {
        Bench::is_wellformed(self);
        preceding(&self.world().store, op)
    }

    fn journal_len(&self) -> usize {
        Bench::journal_len(self)
    }

    fn next_id(&self) -> u32 {
        self.world().store.next_id()
    }

    fn apply_first(
        &mut self,
        alloc: Global,
        entries: &Entries<'_>,
        op: OpId,
    ) -> Result<Option<AppliedPattern>, Refusal> {
        let applied = apply_first(alloc, self, entries, op);
        Bench::is_wellformed(self);
        match applied {
            Ok(applied) => Ok(applied),
            Err(refusal) => Err(refusal),
        }
    }

    fn touched(&self, from: usize, passed: OpId, ops: &mut Vec<OpId>) -> Result<(), Refusal> {
        match touched(self, from, passed, ops) {
            Ok(()) => Ok(()),
            Err(refusal) => Err(refusal),
        }
    }

    fn step(&mut self) -> Result<(), Refusal> {
        Bench::is_wellformed(self);
        let made = Bench::step(self);
        Bench::is_wellformed(self);
        match made {
            Ok(()) => Ok(()),
            Err(refusal) => Err(refusal),
        }
    }

    fn commit(&mut self) {
        close_mark(self, true);
        Bench::is_wellformed(self);
    }

    fn rollback(&mut self) {
        close_mark(self, false);
        Bench::is_wellformed(self);
    }
}

/// Rewrites the rewriter's module by a pattern set, which may be that of canonicalization. Each step finds the first
/// operation in pre-order at which an entry applies, and applies the first such entry. The run stops if no entry
/// applies, or after `limit` rewrites. It passes each rewrite to `trace`, in order. If it is refused, nothing changes in
/// the module, and the recorded rewrites mean nothing.
///
/// Errors: `BadLimit` if the limit isn't within 1 to 1,000,000; `Full` or `IdsExhausted` if a rewrite would exceed the
/// limit of operations or of ids; `Full` if the context is full; `Memory` if memory runs out.
pub fn rewrite<L: Analysis, T: Tracer>(
    alloc: Global,
    bench: &mut Bench<L>,
    pattern_set: &PatternSet<'_>,
    limit: u32,
    trace: &mut T,
) -> Result<Outcome, Refusal>
    requires { MayTry pattern_set.now.entries }
    ensures does { Does L.meaning (Change (rewriting (pattern_set_of pattern_set.now) limit)) (canonical_reply result) bench.old bench.new }
    ensures trace { OnOk result
        (T.traced (trace_of (pattern_set_of pattern_set.now) limit (module_held bench.old.transaction)) trace.old trace.new) }
    ensures refused { IfErr result (λ e. IsReasonBy (pattern_set_of pattern_set.now) limit
        (module_held bench.old.transaction) (IsFull bench.new.transaction.ctx) e) }
    ensures headroom { IsFullSo (IsFull bench.new.transaction.ctx) (state_of L.meaning bench.old)
        (rewriting (pattern_set_of pattern_set.now) limit) (canonical_reply result) }
    ensures led { Led L.meaning bench.old bench.new }
    ensures grows { IsExtendedBy bench.old.transaction.ctx bench.new.transaction.ctx }
    ensures journal { MatchResult result (λ _. Noted bench.old.transaction bench.new.transaction)
        (λ _. Recorded [] bench.old.transaction bench.new.transaction) }
{
    led_benches_are_kept::<L>();
    bench.is_wellformed();
    run(alloc, bench, pattern_set, limit, trace)
}
