//! The greedy driver.
ghost use Rattle.std.specs.Prelude.{◌≡◌, ◌≢◌, ◌⊎◌, ◌≤◌, ℕ, IfOk, IfErr, OnErr, OnOk, MatchResult, is_some, List, [], ◌++◌, ◌∷◌};
ghost use Rattle.std.specs.Prelude.{true, false, ◌&&◌, not, eqb, IfSome, IfNone};
ghost use Rattle.ir_event.specs.types.declared.refusal.Refusal.TheVariants.{Memory as NoMemory};
ghost use Rattle.ir_event.specs.trees.Ids.{has_id};
ghost use Rattle.ir_event.specs.trees.Tree.{head};
ghost use Rattle.ir_event.specs.tree_laws.Reads.{precedes};
ghost use Rattle.greedy.specs.Outcomes.{Applied, ComeTo, IsReasonBy, IsRewriting, Refuses, Stop};
ghost use Rattle.greedy.specs.Outcomes.{MarksRewrite};
ghost use Rattle.greedy.specs.Rewriting.{next_by};
ghost use Rattle.greedy.specs.Ruled.{IsReady, MayTry, model_of, pattern_set_of};
ghost use Rattle.greedy.specs.PatternSet.{PatternSetModel, only_at};
ghost use Rattle.greedy.specs.Applications.{StaysAway};
ghost use Rattle.patterns.specs.rewriter.Moves.{Recorded};
ghost use Rattle.patterns.specs.runs.Runs.{Noted};
ghost use Rattle.greedy.specs.Work.{AreApart, IsWork, Right, CoversBut, Rewritten, StillWaits, waits};
ghost use Rattle.greedy.specs.LocalContext.{is_listed};
ghost use Rattle.greedy.specs.Listing.{TouchedUpTo};
ghost use Rattle.greedy.specs.Tracing.{applied_next, trace_of};

use crate::applied_rewrite::AppliedRewrite;
use crate::greedy_rewriter::GreedyRewriter;
use crate::outcome::Outcome;
use crate::pattern_set::{Entries, PatternSet};
use crate::tracer::Tracer;
use crate::worklist::{Site, Worklist, drop_erased, is_apart, pop, push};
use ir_event::types::ids::OpId;
use ir_event::types::refusal::Refusal;
use std::alloc::Global;
use std::mem;

/// Adds an operation near a rewrite to the worklist, if it is in the module. The rewritten operation is looked up only
/// if it is still there.
fn push_near<R: GreedyRewriter>(
    bench: &R,
    work: &mut Worklist,
    site: &Site,
    op: OpId,
) -> Result<(), Refusal>
    requires work { IsWork work.old.passed work.old.again.items (R.held bench.now).tree }
    requires stays { site.now.stays ≡ has_id site.now.op (R.held bench.now).tree }
    ensures work { IsWork work.new.passed work.new.again.items (R.held bench.now).tree }
    ensures added { OnOk result
        (has_id op (R.held bench.now).tree ≡ true
        → waits work.new.passed work.new.again.items (R.held bench.now).tree op ≡ true) }
    ensures others { StillWaits work.old.passed work.old.again.items
        (R.held bench.now).tree work.new.passed work.new.again.items (R.held bench.now).tree }
    ensures refused { IfErr result (λ e. e ≡ NoMemory) }
{
    if is_gone(site, op) {
        return Ok(());
    }
    push(bench, work, op)
}

/// Returns whether `op` is the rewritten operation and was erased.
fn is_gone(site: &Site, op: OpId) -> bool
    ensures { result ≡ (eqb op site.now.op && not site.now.stays) }
{
    op == site.op && !site.stays
}

/// Adds to the worklist each operation of a list that is in the module.
fn add_all<R: GreedyRewriter>(
    bench: &R,
    work: &mut Worklist,
    site: &Site,
    ops: &[OpId],
) -> Result<(), Refusal>
    requires work { IsWork work.old.passed work.old.again.items (R.held bench.now).tree }
    requires stays { site.now.stays ≡ has_id site.now.op (R.held bench.now).tree }
    ensures work { IsWork work.new.passed work.new.again.items (R.held bench.now).tree }
    ensures added { OnOk result
        ((z : ℕ) → is_listed z ops.now ≡ true → has_id z (R.held bench.now).tree ≡ true
        → waits work.new.passed work.new.again.items (R.held bench.now).tree z ≡ true) }
    ensures others { StillWaits work.old.passed work.old.again.items
        (R.held bench.now).tree work.new.passed work.new.again.items (R.held bench.now).tree }
    ensures refused { IfErr result (λ e. e ≡ NoMemory) }
{
    let mut rest = ops;
    'ops: while let [op, tail @ ..] = rest {
        match push_near(bench, work, site, *op) {
            Ok(()) => {}
            Err(refusal) => return Err(refusal),
        }
        rest = tail;
    }
    Ok(())
}

/// Updates the worklist after a rewrite at `site`. Every waiting operation still waits, and every operation at which a
/// rule may apply differently is added.
fn renew<R: GreedyRewriter>(
    alloc: Global,
    bench: &R,
    work: &mut Worklist,
    site: &Site,
    from: usize,
) -> Result<(), Refusal>
    requires within { from ≤ R.events bench.now }
    requires rewritten { Rewritten site.now.op site.now.before (R.before bench.now from) (R.held bench.now) }
    requires work { IsWork work.old.passed work.old.again.items (R.before bench.now from).tree }
    requires apart { site.now.apart ≡ true → AreApart site.now.op work.old.again.items (R.before bench.now from).tree }
    requires stays { site.now.stays ≡ has_id site.now.op (R.held bench.now).tree }
    ensures ok { OnOk result ((a : PatternSetModel) → StaysAway a
        → CoversBut a site.now.op work.old.passed work.old.again.items (R.before bench.now from)
        → Right a work.new.passed work.new.again.items (R.held bench.now)) }
    ensures refused { IfErr result (λ e. e ≡ NoMemory) }
{
    drop_erased(bench, work, site);
    let mut near = mem::replace(&mut work.near, Vec::new(alloc));
    match bench.touched(from, work.passed, &mut near) {
        Ok(()) => {}
        Err(refusal) => return Err(refusal),
    }
    match push_near(bench, work, site, site.op) {
        Ok(()) => {}
        Err(refusal) => return Err(refusal),
    }
    match add_all(bench, work, site, &near) {
        Ok(()) => {}
        Err(refusal) => return Err(refusal),
    }
    work.near = near;
    Ok(())
}

/// Returns an operation that precedes `op`, which was taken from the worklist, or `None` if `op` is the root. `passed` is
/// the passed operation of the worklist before, and `now` the one after. If they differ, `passed` precedes `op`.
fn preceding_of<R: GreedyRewriter>(bench: &R, passed: OpId, now: OpId, op: OpId) -> Option<OpId>
    requires there { has_id op (R.held bench.now).tree ≡ true }
    requires near { (now ≡ passed) ⊎ (precedes passed op (R.held bench.now).tree ≡ true) }
    ensures some { IfSome result (λ p. precedes p op (R.held bench.now).tree ≡ true) }
    ensures none { IfNone result (op ≡ (head (R.held bench.now).tree).id) }
{
    if now == passed {
        return bench.preceding(op);
    }
    Some(passed)
}

/// Makes one rewrite: at the first operation in pre-order at which an entry applies, with the first such entry. Returns
/// the record of the rewrite, or `None` if no entry applies at any operation.
fn one<R: GreedyRewriter>(
    alloc: Global,
    bench: &mut R,
    entries: &Entries<'_>,
    work: &mut Worklist,
) -> Result<Option<AppliedRewrite>, Refusal>
    requires marked { R.marks bench.old ≢ [] }
    requires ruled { MayTry entries.now }
    requires right { Right (model_of entries.now) work.old.passed work.old.again.items (R.held bench.old) }
    ensures ok { IfOk result
        (λ f. Applied (next_by (model_of entries.now) (R.held bench.old)) (is_some f) (R.held bench.old)
        (R.held bench.new)) }
    ensures applied { IfOk result (λ f. f ≡ applied_next (model_of entries.now) (R.held bench.old)) }
    ensures refused { IfErr result
        (λ e. Refuses (next_by (model_of entries.now) (R.held bench.old)) (R.full bench.new) e) }
    ensures right { IfOk result (λ f. is_some f ≡ true
        → Right (model_of entries.now) work.new.passed work.new.again.items (R.held bench.new)) }
    ensures marks { R.marks bench.new ≡ R.marks bench.old }
    ensures journal { Noted (R.transaction bench.old) (R.transaction bench.new) }
    ensures onward { R.onward bench.old bench.new }
{
    let mut last = work.passed;
    'waiting: while let Some(op) = pop(bench, work) {
        bench.is_wellformed();
        let passed = last;
        last = work.passed;
        if let Some(before) = preceding_of(bench, passed, last, op) {
            let from = bench.journal_len();
            let next = bench.next_id();
            let apart = is_apart(bench, work, op);
            match bench.apply_first(alloc, entries, op) {
                Ok(Some(by)) => {
                    let stays = bench.in_tree(op);
                    let applied = AppliedRewrite {
                        by,
                        op,
                        from: next,
                        until: bench.next_id(),
                        stays,
                    };
                    let site = Site {
                        op,
                        before,
                        apart,
                        stays,
                    };
                    return match renew(alloc, bench, work, &site, from) {
                        Ok(()) => Ok(Some(applied)),
                        Err(refusal) => Err(refusal),
                    };
                }
                Ok(None) => {}
                Err(refusal) => return Err(refusal),
            }
        }
    }
    Ok(None)
}

/// Makes one rewrite at `op`, with the first entry that applies there. Returns the record of the rewrite, or `None` if no
/// entry applies or the operation isn't in the module.
fn one_at<R: GreedyRewriter>(
    alloc: Global,
    bench: &mut R,
    entries: &Entries<'_>,
    op: OpId,
) -> Result<Option<AppliedRewrite>, Refusal>
    requires { MayTry entries.now }
    ensures ok { IfOk result
        (λ f. Applied (next_by (only_at op (model_of entries.now)) (R.held bench.old)) (is_some f) (R.held bench.old)
        (R.held bench.new)) }
    ensures applied { IfOk result (λ f. f ≡ applied_next (only_at op (model_of entries.now)) (R.held bench.old)) }
    ensures refused { IfErr result
        (λ e. Refuses (next_by (only_at op (model_of entries.now)) (R.held bench.old)) (R.full bench.new) e) }
    ensures marks { R.marks bench.new ≡ R.marks bench.old }
    ensures journal { Noted (R.transaction bench.old) (R.transaction bench.new) }
    ensures onward { R.onward bench.old bench.new }
{
    if !bench.in_tree(op) {
        return Ok(None);
    }
    let from = bench.next_id();
    match bench.apply_first(alloc, entries, op) {
        Ok(Some(by)) => {
            let stays = bench.in_tree(op);
            Ok(Some(AppliedRewrite {
                by,
                op,
                from,
                until: bench.next_id(),
                stays,
            }))
        }
        Ok(None) => Ok(None),
        Err(refusal) => Err(refusal),
    }
}

/// Makes the next rewrite of a run. Returns its record, or `None` if no entry of the pattern set applies.
fn next<R: GreedyRewriter>(
    alloc: Global,
    bench: &mut R,
    pattern_set: &PatternSet<'_>,
    work: &mut Worklist,
) -> Result<Option<AppliedRewrite>, Refusal>
    requires marked { R.marks bench.old ≢ [] }
    requires ruled { MayTry pattern_set.now.entries }
    requires right { IsReady pattern_set.now work.old.passed work.old.again.items (R.held bench.old) }
    ensures ok { IfOk result
        (λ f. Applied (next_by (pattern_set_of pattern_set.now) (R.held bench.old)) (is_some f) (R.held bench.old)
        (R.held bench.new)) }
    ensures applied { IfOk result (λ f. f ≡ applied_next (pattern_set_of pattern_set.now) (R.held bench.old)) }
    ensures refused { IfErr result
        (λ e. Refuses (next_by (pattern_set_of pattern_set.now) (R.held bench.old)) (R.full bench.new) e) }
    ensures right { IfOk result (λ f. is_some f ≡ true
        → IsReady pattern_set.now work.new.passed work.new.again.items (R.held bench.new)) }
    ensures marks { R.marks bench.new ≡ R.marks bench.old }
    ensures journal { Noted (R.transaction bench.old) (R.transaction bench.new) }
    ensures onward { R.onward bench.old bench.new }
{
    match pattern_set.at {
        None => one(alloc, bench, &pattern_set.entries, work),
        Some(op) => one_at(alloc, bench, &pattern_set.entries, op),
    }
}

/// Converts the refusal of an attempt. Every refusal but `Memory` means that an entry of the pattern set applies.
fn applies_or_memory(refusal: Refusal) -> Result<bool, Refusal>
    ensures ok { IfOk result (λ any. (any ≡ true) × (refusal ≢ NoMemory)) }
    ensures refused { IfErr result (λ e. e ≡ NoMemory) }
{
    match refusal {
        Refusal::Memory => Err(Refusal::Memory),
        _ => Ok(true),
    }
}

/// Returns whether an entry of the pattern set applies. The module is restored afterwards.
fn applies<R: GreedyRewriter>(
    alloc: Global,
    bench: &mut R,
    pattern_set: &PatternSet<'_>,
    work: &mut Worklist,
) -> Result<bool, Refusal>
    requires ruled { MayTry pattern_set.now.entries }
    requires right { IsReady pattern_set.now work.old.passed work.old.again.items (R.held bench.old) }
    ensures ok { IfOk result (λ any. MarksRewrite (next_by (pattern_set_of pattern_set.now) (R.held bench.old)) any) }
    ensures held { R.held bench.new ≡ R.held bench.old }
    ensures marks { R.marks bench.new ≡ R.marks bench.old }
    ensures left { Recorded [] (R.transaction bench.old) (R.transaction bench.new) }
    ensures onward { R.onward bench.old bench.new }
    ensures refused { IfErr result (λ e. e ≡ NoMemory) }
{
    match bench.step() {
        Ok(()) => {}
        Err(_) => return Err(Refusal::Memory),
    }
    let done = next(alloc, bench, pattern_set, work);
    bench.rollback();
    match done {
        Ok(applied) => Ok(applied.is_some()),
        Err(refusal) => applies_or_memory(refusal),
    }
}

/// Makes at most `limit` rewrites and passes each to `trace`.
fn rewrites<R: GreedyRewriter, T: Tracer>(
    alloc: Global,
    bench: &mut R,
    pattern_set: &PatternSet<'_>,
    work: &mut Worklist,
    limit: u32,
    trace: &mut T,
) -> Result<Outcome, Refusal>
    requires marked { R.marks bench.old ≢ [] }
    requires ruled { MayTry pattern_set.now.entries }
    requires right { IsReady pattern_set.now work.old.passed work.old.again.items (R.held bench.old) }
    ensures ok { IfOk result (λ o. ComeTo (pattern_set_of pattern_set.now) limit (R.held bench.old) o (R.held bench.new)) }
    ensures trace { OnOk result (T.traced (trace_of (pattern_set_of pattern_set.now) limit (R.held bench.old)) trace.old trace.new) }
    ensures refused { IfErr result (λ e. Stop (pattern_set_of pattern_set.now) limit (R.held bench.old) (R.full bench.new) e) }
    ensures marks { R.marks bench.new ≡ R.marks bench.old }
    ensures journal { Noted (R.transaction bench.old) (R.transaction bench.new) }
    ensures onward { R.onward bench.old bench.new }
{
    let mut count = 0;
    'rewrites: while count < limit {
        match next(alloc, bench, pattern_set, work) {
            Ok(Some(applied)) => match trace.record_rewrite(applied) {
                Ok(()) => {}
                Err(refusal) => return Err(refusal),
            },
            Ok(None) => return Ok(Outcome::Converged(count)),
            Err(refusal) => return Err(refusal),
        }
        count += 1;
    }
    match applies(alloc, bench, pattern_set, work) {
        Ok(true) => Ok(Outcome::Limit(count)),
        Ok(false) => Ok(Outcome::Converged(count)),
        Err(_) => Err(Refusal::Memory),
    }
}

/// Makes at most `limit` rewrites, starting with a worklist of all operations.
fn rewritten<R: GreedyRewriter, T: Tracer>(
    alloc: Global,
    bench: &mut R,
    pattern_set: &PatternSet<'_>,
    limit: u32,
    trace: &mut T,
) -> Result<Outcome, Refusal>
    requires marked { R.marks bench.old ≢ [] }
    requires ruled { MayTry pattern_set.now.entries }
    ensures ok { IfOk result (λ o. ComeTo (pattern_set_of pattern_set.now) limit (R.held bench.old) o (R.held bench.new)) }
    ensures trace { OnOk result (T.traced (trace_of (pattern_set_of pattern_set.now) limit (R.held bench.old)) trace.old trace.new) }
    ensures refused { IfErr result (λ e. Stop (pattern_set_of pattern_set.now) limit (R.held bench.old) (R.full bench.new) e) }
    ensures marks { R.marks bench.new ≡ R.marks bench.old }
    ensures journal { Noted (R.transaction bench.old) (R.transaction bench.new) }
    ensures onward { R.onward bench.old bench.new }
{
    bench.is_wellformed();
    let mut work = Worklist {
        passed: bench.root(),
        again: Vec::new(alloc),
        near: Vec::new(alloc),
    };
    rewrites(alloc, bench, pattern_set, &mut work, limit, trace)
}

/// Applies the pattern set until no entry applies, or until `limit` rewrites are made. Each step takes the first
/// operation in pre-order at which an entry applies, and applies the first such entry. Passes each rewrite to `trace`.
/// If the run is refused, nothing changes, and the recorded rewrites mean nothing.
///
/// Errors: `BadLimit` if the limit isn't within 1 to 1,000,000; `Full` or `IdsExhausted` if a rewrite would exceed the
/// limit of operations or of ids; `Full` if the context is full; `Memory` if memory runs out.
pub fn run<R: GreedyRewriter, T: Tracer>(
    alloc: Global,
    bench: &mut R,
    pattern_set: &PatternSet<'_>,
    limit: u32,
    trace: &mut T,
) -> Result<Outcome, Refusal>
    requires { MayTry pattern_set.now.entries }
    ensures ok { IfOk result (λ o. IsRewriting (pattern_set_of pattern_set.now) limit (R.held bench.old) o (R.held bench.new)) }
    ensures trace { OnOk result (T.traced (trace_of (pattern_set_of pattern_set.now) limit (R.held bench.old)) trace.old trace.new) }
    ensures err { OnErr result (R.held bench.new ≡ R.held bench.old) }
    ensures refused { IfErr result
        (λ e. IsReasonBy (pattern_set_of pattern_set.now) limit (R.held bench.old) (R.full bench.new) e) }
    ensures marks { R.marks bench.new ≡ R.marks bench.old }
    ensures journal { MatchResult result (λ _. Noted (R.transaction bench.old) (R.transaction bench.new))
        (λ _. Recorded [] (R.transaction bench.old) (R.transaction bench.new)) }
    ensures onward { R.onward bench.old bench.new }
{
    if limit < 1 || limit > 1_000_000 {
        return Err(Refusal::BadLimit);
    }
    match bench.step() {
        Ok(()) => {}
        Err(_) => return Err(Refusal::Memory),
    }
    match rewritten(alloc, bench, pattern_set, limit, trace) {
        Ok(outcome) => {
            bench.commit();
            Ok(outcome)
        }
        Err(refusal) => {
            bench.rollback();
            Err(refusal)
        }
    }
}
