//! The second phase: learns the values that can be known.
ghost use Rattle.std.specs.Prelude.{◌≡◌, ◌≤◌, ◌+◌, ◌⊎◌, ℕ, length, true, None, Option};
ghost use Rattle.ir_event.specs.tree_laws.Members.{In};
ghost use Rattle.dialects_int.specs.Folds.{known_of};
ghost use Rattle.constants.specs.Facts.{Header, value};
ghost use Rattle.constants.specs.Trails.{Uses, IsThere};
ghost use Rattle.constants.specs.Phases.{Noted, Learnt, LearntFrom};
ghost use Rattle.constants.specs.Tables.{known_in, look_in, uses_in, users_of};

use crate::forget::push;
use crate::packed::PackedBits;
use crate::table::{fact, note};
use crate::users::{folded, uses_of};
use ir_event::store::uses::UsesOf;
use ir_event::types::bits::Bits;
use ir_event::types::ids::OpId;
use ir_event::view::View;
use listeners_support::IdMap;
use std::alloc::Global;

/// Writes a known value, and appends the operation to the trail. Returns `false` if memory ran out.
fn note_on(table: &mut IdMap<PackedBits>, op: OpId, bits: &Bits, trail: &mut Vec<OpId>) -> bool
    ensures { Noted (result ≡ true) op (bits.now.kind, bits.now.value) (known_in table.old)
        (known_in table.new) trail.old.items trail.new.items }
{
    if !note(table, op, bits) {
        return false;
    }
    push(trail, op)
}

/// Writes a known value if there is one, and appends the operation to the trail. Returns `false` if memory ran out.
fn note_found(
    table: &mut IdMap<PackedBits>,
    op: OpId,
    found: &Option<Bits>,
    trail: &mut Vec<OpId>,
) -> bool
    ensures { (ops : ℕ → Option Header) → known_in table.old op ≡ None
        → known_of found.now ≡ value ops (known_in table.old) op → Learnt (result ≡ true) ops (λ y. y ≡ op)
        (known_in table.old) (known_in table.new) trail.old.items trail.new.items }
{
    match found {
        Some(bits) => note_on(table, op, bits, trail),
        None => true,
    }
}

/// Writes the fold of an operation without a known value. If there is a fold, appends the operation to the trail.
/// Returns `false` if memory ran out.
fn learn(
    alloc: Global,
    view: &mut View<'_>,
    table: &mut IdMap<PackedBits>,
    op: OpId,
    trail: &mut Vec<OpId>,
) -> bool
    ensures learnt { IsThere (look_in view.old.world.now) op → Learnt (result ≡ true) (look_in view.old.world.now)
        (λ y. y ≡ op) (known_in table.old) (known_in table.new) trail.old.items trail.new.items }
    ensures looks { view.new.looks ≤ view.old.looks + 1 }
    ensures world { view.new.world.now ≡ view.old.world.now }
{
    if let Some(_) = fact(table, op) {
        return true;
    }
    match folded(alloc, view, table, op) {
        Ok(found) => note_found(table, op, &found, trail),
        Err(_) => false,
    }
}

/// Folds the operations with these uses.
fn learn_uses(
    alloc: Global,
    view: &mut View<'_>,
    table: &mut IdMap<PackedBits>,
    uses: UsesOf<'_>,
    trail: &mut Vec<OpId>,
) -> bool
    ensures learnt { ((y : ℕ) → In y (users_of uses.entry) → IsThere (look_in view.old.world.now) y)
        → Learnt (result ≡ true) (look_in view.old.world.now) (λ y. In y (users_of uses.entry)) (known_in table.old)
        (known_in table.new) trail.old.items trail.new.items }
    ensures looks { view.new.looks ≤ view.old.looks + length uses.entry }
    ensures world { view.new.world.now ≡ view.old.world.now }
{
    for (user, _) in uses {
        if !learn(alloc, view, table, user, trail) {
            return false;
        }
    }
    true
}

/// Folds each of these operations.
fn learn_all(
    alloc: Global,
    view: &mut View<'_>,
    table: &mut IdMap<PackedBits>,
    ops: &[OpId],
    trail: &mut Vec<OpId>,
) -> bool
    ensures learnt { ((y : ℕ) → In y ops.now → IsThere (look_in view.old.world.now) y)
        → Learnt (result ≡ true) (look_in view.old.world.now) (λ y. In y ops.now) (known_in table.old)
        (known_in table.new) trail.old.items trail.new.items }
    ensures looks { view.new.looks ≤ view.old.looks + length ops.now }
    ensures world { view.new.world.now ≡ view.old.world.now }
{
    for op in ops {
        if !learn(alloc, view, table, *op, trail) {
            return false;
        }
    }
    true
}

/// Folds a changed operation, and the operations that were forgotten.
fn learn_first(
    alloc: Global,
    view: &mut View<'_>,
    table: &mut IdMap<PackedBits>,
    op: OpId,
    forgotten: &[OpId],
    trail: &mut Vec<OpId>,
) -> bool
    ensures learnt { IsThere (look_in view.old.world.now) op
        → ((y : ℕ) → In y forgotten.now → IsThere (look_in view.old.world.now) y)
        → Learnt (result ≡ true) (look_in view.old.world.now) (λ y. (y ≡ op) ⊎ In y forgotten.now) (known_in table.old)
        (known_in table.new) trail.old.items trail.new.items }
    ensures looks { view.new.looks ≤ view.old.looks + (1 + length forgotten.now) }
    ensures world { view.new.world.now ≡ view.old.world.now }
{
    if !learn(alloc, view, table, op, trail) {
        return false;
    }
    learn_all(alloc, view, table, forgotten, trail)
}

/// Folds the operations that use an operation's result.
fn learn_users(
    alloc: Global,
    view: &mut View<'_>,
    table: &mut IdMap<PackedBits>,
    op: OpId,
    trail: &mut Vec<OpId>,
) -> bool
    ensures learnt { Learnt (result ≡ true) (look_in view.old.world.now) (Uses (look_in view.old.world.now) op)
        (known_in table.old) (known_in table.new) trail.old.items trail.new.items }
    ensures looks { view.new.looks
        ≤ view.old.looks + (1 + uses_in view.old.world.now op + uses_in view.old.world.now op) }
    ensures world { view.new.world.now ≡ view.old.world.now }
{
    let uses = uses_of(view, op);
    learn_uses(alloc, view, table, uses, trail)
}

/// Learns the values that can be known after an operation changed and others were forgotten. Returns `false` if memory
/// ran out.
pub(crate) fn learn_from(
    alloc: Global,
    view: &mut View<'_>,
    table: &mut IdMap<PackedBits>,
    op: OpId,
    forgotten: &[OpId],
) -> bool
    ensures learnt { IsThere (look_in view.old.world.now) op
        → ((y : ℕ) → In y forgotten.now → IsThere (look_in view.old.world.now) y)
        → LearntFrom (result ≡ true) (look_in view.old.world.now) (uses_in view.old.world.now) op forgotten.now
        (known_in table.old) (known_in table.new) view.old.looks view.new.looks }
    ensures world { view.new.world.now ≡ view.old.world.now }
{
    let mut trail = Vec::new(alloc);
    if !learn_first(alloc, view, table, op, forgotten, &mut trail) {
        return false;
    }
    let mut next = 0;
    while next < trail.len() {
        if !learn_users(alloc, view, table, trail[next], &mut trail) {
            return false;
        }
        next += 1;
    }
    true
}
