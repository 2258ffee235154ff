//! Lists the users of operations.
ghost use Rattle.std.specs.Prelude.{◌≡◌, OnOk, Some, drop, false};
ghost use Rattle.std.specs.List.{list_any};
ghost use Rattle.effects.specs.Dead.{is_result_of};
ghost use Rattle.ir_event.specs.trees.Places.{place_of};
ghost use Rattle.greedy.specs.LocalContext.{Uses};
ghost use Rattle.greedy.specs.Adding.{Adds, OneOf};
ghost use Rattle.greedy.specs.Parts.{IsHanded, IsIn, IsOver, IsSeer, IsUser};

use crate::push::push;
use crate::walk::precedes;
use ir_event::store::store::Store;
use ir_event::store::uses::UsesOf;
use ir_event::trees::place::Place;
use ir_event::trees::value::Value;
use ir_event::types::ids::OpId;
use ir_event::world::World;
use std::alloc::AllocError;

/// Pushes the operation of each use.
fn push_used(ops: &mut Vec<OpId>, uses: UsesOf<'_>) -> Result<(), AllocError>
    ensures { OnOk result (Adds (IsIn uses.entry) ops.old.items ops.new.items) }
{
    'uses: for (user, _) in uses {
        push(ops, user)?;
    }
    Ok(())
}

/// Pushes the operations that use `value`.
fn push_uses(store: &Store, ops: &mut Vec<OpId>, value: Value) -> Result<(), AllocError>
    ensures { OnOk result (Adds (IsUser value store.now.module_of.tree) ops.old.items ops.new.items) }
{
    push_used(ops, store.uses(value))
}

/// Pushes the operations that use a result of `op`.
fn push_users(world: &World, ops: &mut Vec<OpId>, op: OpId) -> Result<(), AllocError>
    ensures { OnOk result (Adds (λ x. Uses x op world.now.store.module_of.tree) ops.old.items ops.new.items) }
{
    let Some(node) = world.shown(op) else {
        return Ok(());
    };
    let count = node.results().len() as u32;
    let mut number = 0;
    'numbers: while number < count {
        push_uses(&world.store, ops, Value::Result(op, number))?;
        number += 1;
    }
    Ok(())
}

/// Returns whether `value` is a result of `op`.
fn is_result(value: &Value, op: OpId) -> bool
    ensures { result ≡ is_result_of op value.now }
{
    match value {
        Value::Result(other, _) => *other == op,
        Value::Arg(..) => false,
    }
}

/// Returns whether any of the values is a result of `op`.
fn has_result(values: &[Value], op: OpId) -> bool
    ensures { result ≡ list_any (is_result_of op) values.now }
{
    let mut rest = values;
    'values: while let [value, tail @ ..] = rest {
        if is_result(value, op) {
            return true;
        }
        rest = tail;
    }
    false
}

/// Returns whether an operand of `user` is a result of `op`.
fn is_user(world: &World, user: OpId, op: OpId) -> bool
    ensures { result ≡ false → Uses user op world.now.store.module_of.tree → ⊥ }
{
    match world.shown(user) {
        None => false,
        Some(node) => has_result(node.operands(), op),
    }
}

/// Pushes the parent of `op`, which is at `place`, if the last operation of the block uses a result of `op`.
fn push_handed_at(
    world: &World,
    ops: &mut Vec<OpId>,
    op: OpId,
    place: &Place,
) -> Result<(), AllocError>
    requires { place_of op world.now.store.module_of.tree ≡ Some place.now }
    ensures { OnOk result (Adds (IsHanded world.now.store.module_of.tree op) ops.old.items ops.new.items) }
{
    let Some(last) = world.store.last(place.parent, place.region) else {
        return Ok(());
    };
    if is_user(world, last, op) {
        return push(ops, place.parent);
    }
    Ok(())
}

/// Pushes the parent of `op` if the last operation of the block of `op` uses a result of `op`.
fn push_handed(world: &World, ops: &mut Vec<OpId>, op: OpId) -> Result<(), AllocError>
    ensures { OnOk result (Adds (IsHanded world.now.store.module_of.tree op) ops.old.items ops.new.items) }
{
    let Some(place) = world.store.place(op) else {
        return Ok(());
    };
    push_handed_at(world, ops, op, &place)
}

/// Pushes the parent of `op` if `op` ends its block, or the last operation of the block uses a result of `op`.
pub(crate) fn push_over(world: &World, ops: &mut Vec<OpId>, op: OpId) -> Result<(), AllocError>
    ensures { OnOk result (Adds (IsOver world.now.store.module_of.tree op) ops.old.items ops.new.items) }
{
    let Some(place) = world.store.place(op) else {
        return Ok(());
    };
    match place.before {
        Some(_) => push_handed_at(world, ops, op, &place),
        None => push(ops, place.parent),
    }
}

/// Pushes the users of `op`, unless `op` comes after `passed` in pre-order. Then all users come after `passed` too, and
/// only the parent of `op` is pushed, if the last operation of the block uses a result of `op`.
fn push_seers(world: &World, ops: &mut Vec<OpId>, passed: OpId, op: OpId) -> Result<(), AllocError>
    ensures { OnOk result (Adds (IsSeer world.now.store.module_of.tree passed op) ops.old.items ops.new.items) }
{
    if !world.store.in_tree(op) {
        return Ok(());
    }
    if precedes(&world.store, passed, op) {
        return push_handed(world, ops, op);
    }
    push_users(world, ops, op)
}

/// Pushes the users of each listed operation, from index `from` on, as far as they may come before `passed`.
pub(crate) fn push_seers_from(
    world: &World,
    ops: &mut Vec<OpId>,
    passed: OpId,
    from: usize,
) -> Result<(), AllocError>
    ensures { OnOk result (Adds
        (OneOf (IsSeer world.now.store.module_of.tree passed) (drop from ops.old.items)) ops.old.items
        ops.new.items) }
{
    let count = ops.len();
    let mut place = from;
    'listed: while place < count {
        let op = ops[place];
        push_seers(world, ops, passed, op)?;
        place += 1;
    }
    Ok(())
}
