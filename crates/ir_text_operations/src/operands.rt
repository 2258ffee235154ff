//! The types and values of operands.
ghost use Rattle.std.specs.Prelude.{◌≡◌, IfOk};
ghost use Rattle.std.specs.Str.{bytes_eq};
ghost use Rattle.ir_text_operations.specs.OpReading.{bound_types, values_of};

use ir_text_names::bound::TypedValue;
use ir_tree::value::Value;
use ir_types::ids::TypeId;
use std::alloc::{AllocError, Global};

/// Returns whether the types of the operands equal the inputs of a function type.
pub fn agrees(operands: &[TypedValue], inputs: &[TypeId]) -> bool
    ensures { result ≡ bytes_eq (bound_types operands.now) inputs.now }
{
    let mut left = operands;
    let mut right = inputs;
    'items: while let [operand, more @ ..] = left {
        if let [input, others @ ..] = right {
            if operand.ty != *input {
                return false;
            }
            left = more;
            right = others;
        } else {
            return false;
        }
    }
    right.is_empty()
}

/// Returns the values of operands.
pub fn values_of(alloc: Global, operands: &[TypedValue]) -> Result<Vec<Value>, AllocError>
    ensures { IfOk result (λ v. v.items ≡ values_of operands.now) }
{
    let mut values = Vec::with_capacity(alloc, operands.len())?;
    'items: for operand in operands {
        values.push_reserved(operand.value);
    }
    Ok(values)
}
