//! Collects the uses of a module in two passes over its operations: one counts the uses, and one lists them.
ghost use Rattle.std.specs.Prelude.{◌≡◌, ◌++◌, IfOk, OnOk};
ghost use Rattle.listeners.specs.Uses.{operand_uses, uses_in};
ghost use Rattle.listeners.specs.Following.{operands_in};
ghost use Rattle.listeners.specs.Collected.{if_any, uses_by};

use crate::listing::Listing;
use ir_event::store::store::Store;
use ir_event::types::ids::OpId;
use ir_event::world::World;
use std::alloc::{AllocError, Global};

/// The number of operations with operands, and the number of operands.
#[derive(Clone, Copy)]
struct Counts {
    users: usize,
    operands: usize,
}

/// Returns the uses of the module: users in pre-order, the operands of each in order.
pub(crate) fn collect(alloc: Global, world: &World) -> Result<Listing, AllocError>
    ensures { IfOk result (λ uses. uses ≡ uses_in world.now.store.module_of.tree) }
{
    let Ok(ops) = world.store.operations() else {
        return Err(AllocError);
    };
    let counts = count(&world.store, &ops);
    let mut out = Listing::with_headroom(alloc, counts.users, counts.operands)?;
    push_all(&world.store, &ops, &mut out)?;
    Ok(out)
}

/// Counts users and operands, to reserve memory once. The contracts don't depend on the counts.
fn count(store: &Store, ops: &[OpId]) -> Counts {
    let mut users: usize = 0;
    let mut operands: usize = 0;
    for op in ops {
        let found = operand_count(store, *op);
        if found > 0 {
            users = users.saturating_add(1);
            operands = operands.saturating_add(found);
        }
    }
    Counts { users, operands }
}

/// Returns the number of operands of an operation.
fn operand_count(store: &Store, op: OpId) -> usize {
    match store.node(op) {
        None => 0,
        Some(node) => node.operands().len(),
    }
}

/// Appends the uses of the operations in order.
fn push_all(store: &Store, ops: &[OpId], out: &mut Listing) -> Result<(), AllocError>
    ensures { OnOk result (out.new ≡ out.old ++ uses_by (operands_in store.now) ops.now) }
{
    for op in ops {
        push_uses(store, *op, out)?;
    }
    Ok(())
}

/// Appends the uses of an operation.
fn push_uses(store: &Store, op: OpId, out: &mut Listing) -> Result<(), AllocError>
    ensures { OnOk result (out.new ≡ out.old ++ operand_uses op 0 (if_any (operands_in store.now op))) }
{
    let Some(node) = store.node(op) else {
        return Ok(());
    };
    out.push(op, node.operands())
}
