//! Updates the table of roles.
ghost use Rattle.std.specs.Prelude.{◌≡◌, ◌≤◌, ◌+◌, Some, true, option_map, OnOk, IfOk};
ghost use Rattle.listeners_support.specs.Nodes.{node_of};
ghost use Rattle.listeners_support.specs.Stored.{known};
ghost use Rattle.ir_event.specs.Bounds.{op_of, operand_count};
ghost use Rattle.ir_event.specs.Listener.{is_take};
ghost use Rattle.ir_event.specs.Modules.{module_in};
ghost use Rattle.listeners_symbols.specs.Listeners.{kept_at};
ghost use Rattle.listeners_symbols.specs.Table.{Added, Followed, Keeps, OperandFollowed, Renewed};

use crate::gather::gather;
use crate::properties::callee_of;
use crate::roles::Roles;
use ir_event::event::Event;
use ir_event::types::ids::OpId;
use ir_event::view::View;
use ir_event::world::World;
use listeners_support::node::Node;
use std::alloc::{AllocError, Global};

/// Updates the role of an operation that the view shows as `node`.
fn renew_by(
    alloc: Global,
    roles: &mut Roles,
    view: &mut View<'_>,
    op: OpId,
    node: &Node<'_>,
) -> Result<(), AllocError>
    requires { option_map node_of (known op view.old.world.now.store) ≡ Some node.now }
    ensures renewed { OnOk result
        (Renewed view.old.world.now.ctx (module_in view.old.world.now).tree op (kept_at roles.old)
        (kept_at roles.new)) }
    ensures looks { view.new.looks ≤ view.old.looks + (1 + operand_count (known op view.old.world.now.store)) }
    ensures world { view.new.world.now ≡ view.old.world.now }
{
    let role = gather(alloc, roles, view, op, node)?;
    roles.enter(alloc, op, role, node.region_count() > 0)?;
    Ok(())
}

/// Updates the role of an operation of the view's module.
fn renew(alloc: Global, roles: &mut Roles, view: &mut View<'_>, op: OpId) -> Result<(), AllocError>
    ensures renewed { OnOk result
        (Renewed view.old.world.now.ctx (module_in view.old.world.now).tree op (kept_at roles.old)
        (kept_at roles.new)) }
    ensures looks { view.new.looks ≤ view.old.looks + (2 + operand_count (known op view.old.world.now.store)) }
    ensures world { view.new.world.now ≡ view.old.world.now }
{
    let Some(node) = view.node(op) else {
        return Err(AllocError);
    };
    renew_by(alloc, roles, view, op, &node)
}

/// Updates the table after an operand was set. Only a call can change, because a role has the types of a call's
/// operands.
fn follow_operand(
    alloc: Global,
    roles: &mut Roles,
    view: &mut View<'_>,
    op: OpId,
) -> Result<(), AllocError>
    ensures followed { OnOk result
        (OperandFollowed view.old.world.now.ctx (module_in view.old.world.now).tree op (kept_at roles.old)
        (kept_at roles.new)) }
    ensures looks { view.new.looks ≤ view.old.looks + (2 + operand_count (known op view.old.world.now.store)) }
    ensures world { view.new.world.now ≡ view.old.world.now }
{
    let Some(node) = view.node(op) else {
        return Err(AllocError);
    };
    match callee_of(view.context(), &node) {
        None => Ok(()),
        Some(_) => renew_by(alloc, roles, view, op, &node),
    }
}

/// Updates the table after an event, given the view of the module after it. Looks only at the event's operation.
pub fn follow(
    alloc: Global,
    roles: &mut Roles,
    view: &mut View<'_>,
    event: &Event,
) -> Result<(), AllocError>
    ensures followed { OnOk result
        (Followed view.old.world.now.ctx (module_in view.old.world.now).tree event.now (kept_at roles.old)
        (kept_at roles.new)) }
    ensures looks { view.new.looks
        ≤ view.old.looks + (2 + operand_count (known (op_of event.now) view.old.world.now.store)) }
    ensures take { is_take event.now ≡ true → view.new.looks ≡ view.old.looks }
    ensures world { view.new.world.now ≡ view.old.world.now }
{
    match event {
        Event::Put { op, .. } => renew(alloc, roles, view, *op),
        Event::Take { op, .. } => {
            roles.remove(*op);
            Ok(())
        }
        Event::SetOperand { op, .. } => follow_operand(alloc, roles, view, *op),
        Event::SetEntry { op, .. } => renew(alloc, roles, view, *op),
        Event::Shift { op, .. } => renew(alloc, roles, view, *op),
    }
}

/// Updates the roles of operations of the view's module, parents before their children.
fn renew_all(
    alloc: Global,
    roles: &mut Roles,
    view: &mut View<'_>,
    ops: &[OpId],
) -> Result<(), AllocError>
    ensures { OnOk result (Added view.old.world.now.ctx (module_in view.old.world.now).tree ops.now (kept_at roles.old)
        (kept_at roles.new)) }
{
    for op in ops {
        renew(alloc, roles, view, *op)?;
    }
    Ok(())
}

/// Returns the roles of the operations of the module.
pub fn tabulate(alloc: Global, world: &World) -> Result<Roles, AllocError>
    ensures { IfOk result (λ roles. Keeps world.now.ctx (module_in world.now).tree (kept_at roles)) }
{
    let Ok(ops) = world.store.operations() else {
        return Err(AllocError);
    };
    let mut roles = Roles::new(alloc);
    let mut view = View::new(world);
    renew_all(alloc, &mut roles, &mut view, &ops)?;
    Ok(roles)
}
