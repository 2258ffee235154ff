//! The users that a note lists.
ghost use Rattle.std.specs.Prelude.{◌≡◌, ◌++◌, ◌∷◌, [], if◌then◌else◌, OnOk, IfOk, filter};
ghost use Rattle.ir_event.specs.trees.Meaning.{isolated_in};
ghost use Rattle.mlir_work_notes.specs.Standing.{blind_users, is_blind, outside_users, uses_from_outside};

use crate::existing_ops::{is_blind, uses_from_outside};
use ir_event::trees::value::Value;
use ir_event::types::ids::OpId;
use ir_event::world::World;
use std::alloc::{AllocError, Global};

/// Appends an operation if `picked` is set.
fn push_if(out: &mut Vec<OpId>, op: OpId, picked: bool) -> Result<(), AllocError>
    ensures { OnOk result (out.new.items ≡ out.old.items ++ (if picked then op ∷ [] else [])) }
{
    if picked {
        out.push(op)?;
    }
    Ok(())
}

/// Returns the operations of a list that are outside `op` and use a value of `op` or of an operation nested in it.
fn those_outside(
    alloc: Global,
    world: &World,
    op: OpId,
    ops: &[OpId],
) -> Result<Vec<OpId>, AllocError>
    ensures { IfOk result (λ v. v.items ≡ filter (uses_from_outside op world.now.store.module_of.tree) ops.now) }
{
    let mut out = Vec::new(alloc);
    let mut rest = ops;
    'ops: while let [user, more @ ..] = rest {
        push_if(&mut out, *user, uses_from_outside(world, op, *user))?;
        rest = more;
    }
    Ok(out)
}

/// Returns the operations outside `op` that use a value of `op` or of an operation nested in it, in pre-order.
pub(crate) fn outside_users(alloc: Global, world: &World, op: OpId) -> Result<Vec<OpId>, AllocError>
    ensures { IfOk result (λ v. v.items ≡ outside_users op world.now.store.module_of.tree) }
{
    let Ok(ops) = world.store.operations() else {
        return Err(AllocError);
    };
    those_outside(alloc, world, op, &ops)
}

/// Returns the operations of a list that use `old` while `new` isn't visible there.
fn those_blind(
    alloc: Global,
    world: &World,
    old: &Value,
    new: &Value,
    ops: &[OpId],
) -> Result<Vec<OpId>, AllocError>
    ensures { IfOk result (λ v. v.items ≡ filter (is_blind (isolated_in world.now.ctx) old.now new.now world.now.store.module_of.tree) ops.now) }
{
    let mut out = Vec::new(alloc);
    let mut rest = ops;
    'ops: while let [user, more @ ..] = rest {
        push_if(&mut out, *user, is_blind(world, old, new, *user))?;
        rest = more;
    }
    Ok(out)
}

/// Returns the operations that use `old` while `new` isn't visible there, in pre-order.
pub(crate) fn blind_users(
    alloc: Global,
    world: &World,
    old: &Value,
    new: &Value,
) -> Result<Vec<OpId>, AllocError>
    ensures { IfOk result (λ v. v.items ≡ blind_users (isolated_in world.now.ctx) old.now new.now world.now.store.module_of.tree) }
{
    let Ok(ops) = world.store.operations() else {
        return Err(AllocError);
    };
    those_blind(alloc, world, old, new, &ops)
}
