//! The defining operations of operands.
ghost use Rattle.std.specs.Prelude.{◌≡◌, ◌++◌, ◌∷◌, [], OnOk, IfOk, IfSome};
ghost use Rattle.ir_event.specs.Modules.{module_in};
ghost use Rattle.conversion.specs.DefiningOps.{defining_ops_of};
ghost use Rattle.conversion.specs.Walks.{Gives};

use ir_event::trees::value::Value;
use ir_event::types::ids::OpId;
use ir_event::world::World;
use std::alloc::{AllocError, Global};

/// Appends the defining operation of `value`, if it has one.
fn add_defining_op(found_defining_ops: &mut Vec<OpId>, value: &Value) -> Result<(), AllocError>
    ensures { OnOk result (found_defining_ops.new.items ≡ found_defining_ops.old.items ++ defining_ops_of (value.now ∷ [])) }
{
    match value {
        Value::Result(op, _) => match found_defining_ops.push(*op) {
            Ok(()) => Ok(()),
            Err(_) => Err(AllocError),
        },
        Value::Arg(..) => Ok(()),
    }
}

/// Returns the defining operations of `values`, in their order.
fn all_defining_ops(alloc: Global, values: &[Value]) -> Result<Vec<OpId>, AllocError>
    ensures { IfOk result (λ v. v.items ≡ defining_ops_of values.now) }
{
    let mut found_defining_ops = Vec::new(alloc);
    let mut rest = values;
    'values: while let [value, tail @ ..] = rest {
        add_defining_op(&mut found_defining_ops, value)?;
        rest = tail;
    }
    Ok(found_defining_ops)
}

/// Returns the defining operations of the operands of `op`, or `None` if there are operations inside `op`.
pub(crate) fn defining_ops(
    alloc: Global,
    world: &World,
    op: OpId,
) -> Result<Option<Vec<OpId>>, AllocError>
    ensures { IfOk result (λ g. IfSome g (λ v. Gives v.items op (module_in world.now).tree)) }
{
    let Some(node) = world.shown(op) else {
        return Ok(Some(Vec::new(alloc)));
    };
    if node.region_count() > 0 {
        return Ok(None);
    }
    let found_defining_ops = all_defining_ops(alloc, node.operands())?;
    Ok(Some(found_defining_ops))
}
