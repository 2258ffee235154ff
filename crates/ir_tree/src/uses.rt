//! The uses of a value.
ghost use Rattle.std.specs.Prelude.{◌≡◌, ◌++◌, ◌∷◌, [], IfOk, OnOk};
ghost use Rattle.ir_tree.specs.Uses.{uses_of, region_uses, operand_uses, same_value};
ghost use Rattle.ir_tree.specs.View.{region_view};

use crate::tree::{TreeOp, TreeRegion};
use crate::value::Value;
use ir_types::ids::OpId;
use std::alloc::{AllocError, Global};

/// Returns the uses of a value in a tree: users in pre-order, with the indices of the operands.
pub fn list_uses(
    alloc: Global,
    root: &TreeOp,
    value: &Value,
) -> Result<Vec<(OpId, usize)>, AllocError>
    ensures { IfOk result (λ v. v.items ≡ uses_of value.now root.now) }
{
    let mut out = Vec::new(alloc);
    push_uses(root, value, &mut out)?;
    Ok(out)
}

/// Appends the uses of a value in a tree, in pre-order.
#[cycle(uses)]
fn push_uses(root: &TreeOp, value: &Value, out: &mut Vec<(OpId, usize)>) -> Result<(), AllocError>
    ensures { OnOk result (out.new.items ≡ out.old.items ++ uses_of value.now root.now) }
{
    push_own_uses(root.id, &root.operands, value, out)?;
    for region in &root.regions {
        push_region_uses(region, value, out)?;
    }
    Ok(())
}

/// Appends the uses of a value by the operations in a region, in pre-order.
#[cycle(uses)]
fn push_region_uses(
    region: &TreeRegion,
    value: &Value,
    out: &mut Vec<(OpId, usize)>,
) -> Result<(), AllocError>
    ensures { OnOk result (out.new.items ≡ out.old.items ++ region_uses value.now (region_view region.now)) }
{
    if let TreeRegion::Block { ops, .. } = region {
        for op in ops {
            push_uses(op, value, out)?;
        }
    }
    Ok(())
}

/// Appends the uses of a value among the operands of `user`, in order.
fn push_own_uses(
    user: OpId,
    operands: &Vec<Value>,
    value: &Value,
    out: &mut Vec<(OpId, usize)>,
) -> Result<(), AllocError>
    ensures { OnOk result (out.new.items ≡ out.old.items ++ operand_uses value.now user 0 operands.now.items) }
{
    for (number, operand) in operands.iter().enumerate() {
        push_use(user, number, operand, value, out)?;
    }
    Ok(())
}

/// Appends operand `number` of `user` if it is the value.
fn push_use(
    user: OpId,
    number: usize,
    operand: &Value,
    value: &Value,
    out: &mut Vec<(OpId, usize)>,
) -> Result<(), AllocError>
    ensures { OnOk result (out.new.items ≡ out.old.items ++ operand_uses value.now user number (operand.now ∷ [])) }
{
    if is_same(value, operand) {
        out.push((user, number))?;
    }
    Ok(())
}

/// Returns whether two values are equal.
pub fn is_same(one: &Value, other: &Value) -> bool
    ensures { result ≡ same_value one.now other.now }
{
    match one {
        Value::Result(x, k) => match other {
            Value::Result(y, l) => *x == *y && *k == *l,
            Value::Arg(..) => false,
        },
        Value::Arg(x, r, k) => match other {
            Value::Result(..) => false,
            Value::Arg(y, s, l) => *x == *y && *r == *s && *k == *l,
        },
    }
}
