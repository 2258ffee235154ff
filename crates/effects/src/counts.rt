//! The number of uses of each operation's results: a count for each operation, which is one higher for an operation
//! that is never dead.
ghost use Rattle.std.specs.Prelude.{◌≡◌, ℕ, ◌*◌, ◌<◌, nat_lt, length, Some, None, [], ◌∷◌, IsTrue, false};
ghost use Rattle.std.specs.Ordering.{nat_cmp};
ghost use Rattle.listeners_support.specs.Map as idmap;
ghost use Rattle.listeners_support.specs.Bits.{has, has_with};
ghost use Rattle.std.specs.Bool.{OnTrue};
ghost use Rattle.effects.specs.Counts.{counts_in, with_count, Raised, Lowered, Entered, EnteredWith, LeftWith};
ghost use Rattle.effects.specs.Counts.{Exchanged};
ghost use Rattle.effects.specs.Points.{one_if};

use crate::use_counts::UseCounts;
use ir_event::trees::value::Value;
use ir_event::types::ids::OpId;
use listeners_support::{BitSet, IdMap};
use std::alloc::Global;

/// Returns an empty table.
pub(crate) fn no_counts(alloc: Global) -> UseCounts
    ensures { (y : ℕ) → counts_in result y ≡ None }
{
    UseCounts {
        counts: IdMap::new(alloc),
        unused: BitSet::new(alloc),
    }
}

/// Returns the count of an operation, if it has one.
pub(crate) fn count_of(counts: &UseCounts, op: OpId) -> Option<u32>
    ensures { result ≡ counts_in counts.now op }
{
    counts.counts.get(op.number()).copied()
}

/// Adds the operation to the set of unused operations if its count is 0, and removes it otherwise.
fn mark(unused: &mut BitSet, op: OpId, count: u32)
    requires { op < 64 * length unused.old }
    ensures headroom { length unused.new ≡ length unused.old }
    ensures has { (x : ℕ) → has unused.new x ≡ has_with op (nat_lt count 1) unused.old x }
{
    if count == 0 {
        unused.insert(op.number());
    } else {
        unused.remove(op.number());
    }
}

/// Writes the count of an operation. Returns `false` if memory ran out.
fn record_count(counts: &mut IdMap<u32>, op: OpId, count: u32) -> bool
    ensures there { OnTrue result
        ((y : ℕ) → idmap.get counts.new y ≡ with_count op (Some count) (idmap.get counts.old) y) }
    ensures same { result ≡ false → idmap.IsUnchanged counts.old counts.new }
{
    counts.insert(op.number(), count).is_ok()
}

/// Removes the count of an operation. Needs no memory.
fn drop_count(counts: &mut IdMap<u32>, op: OpId)
    ensures { (y : ℕ) → idmap.get counts.new y ≡ with_count op None (idmap.get counts.old) y }
{
    counts.remove(op.number());
}

/// Replaces the count of an operation that has one.
fn write(counts: &mut UseCounts, op: OpId, count: u32)
    ensures { (n : ℕ) → counts_in counts.old op ≡ Some n → (y : ℕ)
        → counts_in counts.new y ≡ with_count op (Some count) (counts_in counts.old) y }
{
    if counts.counts.write(op.number(), count) {
        mark(&mut counts.unused, op, count);
    }
}

/// Counts one more use of a value if the value is the result of an operation in the table. Returns `false` if the count
/// overflows.
fn raise(counts: &mut UseCounts, value: &Value) -> bool
    ensures { OnTrue result (Raised (value.now ∷ []) (counts_in counts.old) (counts_in counts.new)) }
{
    let Value::Result(op, _) = *value else {
        return true;
    };
    let Some(count) = count_of(counts, op) else {
        return true;
    };
    let Some(more) = count.checked_add(1) else {
        return false;
    };
    write(counts, op, more);
    true
}

/// Counts one use less of a value.
fn lower(counts: &mut UseCounts, value: &Value)
    ensures { Lowered (value.now ∷ []) (counts_in counts.old) (counts_in counts.new) }
{
    let Value::Result(op, _) = *value else {
        return;
    };
    let Some(count) = count_of(counts, op) else {
        return;
    };
    write(counts, op, count.saturating_sub(1));
}

/// Counts one more use of each value. Returns `false` if a count overflows.
pub(crate) fn raise_all(counts: &mut UseCounts, values: &[Value]) -> bool
    ensures { OnTrue result (Raised values.now (counts_in counts.old) (counts_in counts.new)) }
{
    for value in values {
        if !raise(counts, value) {
            return false;
        }
    }
    true
}

/// Counts one use less of each value.
fn lower_all(counts: &mut UseCounts, values: &[Value])
    ensures { Lowered values.now (counts_in counts.old) (counts_in counts.new) }
{
    for value in values {
        lower(counts, value);
    }
}

/// Inserts an operation without uses. Returns `false` if memory ran out.
pub(crate) fn enter(counts: &mut UseCounts, op: OpId, kept: bool) -> bool
    ensures { OnTrue result (Entered op kept (counts_in counts.old) (counts_in counts.new)) }
{
    let count: u32 = if kept { 1 } else { 0 };
    if counts.unused.reserve(op.number()).is_err() {
        return false;
    }
    if !record_count(&mut counts.counts, op, count) {
        return false;
    }
    mark(&mut counts.unused, op, count);
    true
}

/// Inserts an operation without uses, and counts its operands. Returns `false` if memory ran out or a count overflows.
pub(crate) fn insert_unused(
    counts: &mut UseCounts,
    op: OpId,
    kept: bool,
    operands: &[Value],
) -> bool
    ensures { OnTrue result (EnteredWith op kept operands.now (counts_in counts.old) (counts_in counts.new)) }
{
    if !enter(counts, op, kept) {
        return false;
    }
    raise_all(counts, operands)
}

/// Removes an operation without uses, and uncounts its operands. Needs no memory.
pub(crate) fn take(counts: &mut UseCounts, op: OpId, operands: &[Value])
    ensures { LeftWith op operands.now (counts_in counts.old) (counts_in counts.new) }
{
    drop_count(&mut counts.counts, op);
    counts.unused.remove(op.number());
    lower_all(counts, operands);
}

/// Counts one more use of the new value and one use less of the old value. Returns `false` if a count overflows.
pub(crate) fn exchange(counts: &mut UseCounts, old: &Value, new: &Value) -> bool
    ensures { OnTrue result (Exchanged old.now new.now (counts_in counts.old) (counts_in counts.new)) }
{
    if !raise(counts, new) {
        return false;
    }
    lower(counts, old);
    true
}
