//! The worklist of the driver.
ghost use Rattle.std.specs.Prelude.{◌≡◌, ◌≢◌, ◌⊎◌, ◌≤◌, ℕ, ◌||◌, length, take, drop, filter, not, IfOk, IfErr, OnErr, OnOk};
ghost use Rattle.std.specs.Prelude.{IfSome, IfNone, MatchOption, true, false};
ghost use Rattle.ir_event.specs.types.declared.refusal.Refusal.TheVariants.{Memory as NoMemory};
ghost use Rattle.ir_event.specs.trees.Ids.{HasDistinctIds, has_id};
ghost use Rattle.ir_event.specs.trees.Tree.{head};
ghost use Rattle.ir_event.specs.tree_laws.Reads.{precedes};
ghost use Rattle.ir_event.specs.Modules.{Module};
ghost use Rattle.greedy.specs.Work.{AllIn, AreApart, begins_with, Parted, Rewritten, IsWork, waits, Taken, NoneWaits, StillWaits};
ghost use Rattle.greedy.specs.Work.{Falls};
ghost use Rattle.greedy.specs.LocalContext.{is_listed};

use crate::greedy_rewriter::GreedyRewriter;
use ir_event::types::ids::OpId;
use ir_event::types::refusal::Refusal;
use std::alloc::Global;

/// The operations at which a rule may apply: every operation after `passed` in pre-order, and those of `again`. The
/// list `again` is in reverse pre-order, so its last entry is the first in pre-order.
#[derive(Drop)]
pub(crate) struct Worklist {
    pub(crate) passed: OpId,
    pub(crate) again: Vec<OpId>,
    /// The operations near the last rewrite. Only its capacity is used again.
    pub(crate) near: Vec<OpId>,
}

/// An operation that was taken from the worklist, for a rewrite there.
#[derive(Clone, Copy)]
pub(crate) struct Site {
    pub(crate) op: OpId,
    /// An operation that precedes `op` in pre-order.
    pub(crate) before: OpId,
    /// No operation of `again` is inside `op`.
    pub(crate) apart: bool,
    /// The operation is still in the module after the rewrite.
    pub(crate) stays: bool,
}

/// Removes the first waiting operation from the worklist and returns it.
pub(crate) fn pop<R: GreedyRewriter>(bench: &R, work: &mut Worklist) -> Option<OpId>
    requires { IsWork work.old.passed work.old.again.items (R.held bench.now).tree }
    ensures { MatchOption result (NoneWaits work.old.passed work.old.again.items (R.held bench.now).tree)
        (λ x. Taken x work.old.passed work.old.again.items work.new.passed work.new.again.items
        (R.held bench.now).tree) }
{
    bench.is_wellformed();
    if let Some(op) = work.again.pop() {
        return Some(op);
    }
    let Some(op) = bench.following(work.passed) else {
        return None;
    };
    work.passed = op;
    Some(op)
}

/// Returns the number of leading entries of `again` that come after `op` in pre-order. The list `again` must be in
/// reverse pre-order.
fn trailing<R: GreedyRewriter>(bench: &R, again: &[OpId], op: OpId) -> usize
    requires { Falls (R.held bench.now).tree again.now }
    ensures bound { result ≤ length again.now }
    ensures parted { Parted op (R.held bench.now).tree (take result again.now) (drop result again.now) }
{
    bench.is_wellformed();
    again.partition_point(
        |other: &OpId| -> bool
            ensures { result ≡ precedes op other.now (R.held bench.entry.now).tree }
        { bench.precedes(op, *other) },
    )
}

/// Returns whether `op` is the entry of the list at index `place`.
fn is_at(again: &[OpId], place: usize, op: OpId) -> bool
    requires { place ≤ length again.now }
    ensures { result ≡ begins_with op (drop place again.now) }
{
    match again.get(place) {
        None => false,
        Some(other) => *other == op,
    }
}

/// Returns whether `op` comes after `passed` in pre-order.
fn is_to_come<R: GreedyRewriter>(bench: &R, work: &Worklist, op: OpId) -> bool
    ensures { result ≡ precedes work.now.passed op (R.held bench.now).tree }
{
    bench.is_wellformed();
    if work.passed == op {
        return false;
    }
    bench.precedes(work.passed, op)
}

/// Adds an operation of the module to the worklist.
pub(crate) fn push<R: GreedyRewriter>(
    bench: &R,
    work: &mut Worklist,
    op: OpId,
) -> Result<(), Refusal>
    requires { IsWork work.old.passed work.old.again.items (R.held bench.now).tree }
    ensures work { IsWork work.new.passed work.new.again.items (R.held bench.now).tree }
    ensures added { OnOk result
        (has_id op (R.held bench.now).tree ≡ true
        → waits work.new.passed work.new.again.items (R.held bench.now).tree op ≡ true) }
    ensures others { StillWaits work.old.passed work.old.again.items
        (R.held bench.now).tree work.new.passed work.new.again.items (R.held bench.now).tree }
    ensures refused { IfErr result (λ e. e ≡ NoMemory) }
{
    bench.is_wellformed();
    if !bench.in_tree(op) {
        return Ok(());
    }
    if is_to_come(bench, work, op) {
        return Ok(());
    }
    let place = trailing(bench, &work.again, op);
    if is_at(&work.again, place, op) {
        return Ok(());
    }
    match work.again.insert(place, op) {
        Ok(()) => Ok(()),
        Err(_) => Err(Refusal::Memory),
    }
}

/// Returns whether no operation of `again` is inside `op`. If false, some may be.
pub(crate) fn is_apart<R: GreedyRewriter>(bench: &R, work: &Worklist, op: OpId) -> bool
    requires { Falls (R.held bench.now).tree work.now.again.items }
    ensures { result ≡ true → AreApart op work.now.again.items (R.held bench.now).tree }
{
    bench.is_wellformed();
    match work.again.last() {
        None => true,
        Some(first) => bench.is_beyond(op, *first),
    }
}

/// Drops from a list the operations that aren't in the module. If `apart`, all are in the module.
fn drop_missing<R: GreedyRewriter>(bench: &R, ops: &mut Vec<OpId>, apart: bool)
    requires { apart ≡ true → AllIn (R.held bench.now).tree ops.old.items }
    ensures { ops.new.items ≡ filter (λ x. has_id x (R.held bench.now).tree) ops.old.items }
{
    if apart {
        return;
    }
    ops.retain(
        |op: &OpId| -> bool
            ensures { result ≡ has_id op.now (R.held bench.entry.now).tree }
        { bench.in_tree(*op) },
    );
}

/// Drops from the worklist the operations that a rewrite at `site` erased. If the operation `passed` was erased,
/// `site.before` replaces it.
pub(crate) fn drop_erased<R: GreedyRewriter>(bench: &R, work: &mut Worklist, site: &Site)
    requires { site.now.apart ≡ true → AllIn (R.held bench.now).tree work.old.again.items }
    ensures work { (m : Module) (x : ℕ) → Rewritten x site.now.before m (R.held bench.now)
        → IsWork work.old.passed work.old.again.items m.tree
        → IsWork work.new.passed work.new.again.items (R.held bench.now).tree }
    ensures others { (m : Module) (x : ℕ) → Rewritten x site.now.before m (R.held bench.now)
        → IsWork work.old.passed work.old.again.items m.tree
        → StillWaits work.old.passed work.old.again.items m.tree work.new.passed work.new.again.items
        (R.held bench.now).tree }
{
    let before = site.before;
    drop_missing(bench, &mut work.again, site.apart);
    if bench.in_tree(work.passed) {
        return;
    }
    work.passed = before;
    work.again.retain(
        |op: &OpId| -> bool
            ensures { result ≡ not (precedes before op.now (R.held bench.entry.now).tree) }
        { !bench.precedes(before, *op) },
    );
}
