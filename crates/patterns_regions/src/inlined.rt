//! The edits that inline a block of an operation: the operations of the block move before it, and it is erased.
ghost use Rattle.std.specs.Prelude.{◌≡◌, ◌++◌, IfOk, OnOk};
ghost use Rattle.ir_event.specs.types.Things.{ContextModel};
ghost use Rattle.patterns_plans.specs.reads.Lists.{AllFit, edits_meaning};
ghost use Rattle.patterns_regions.specs.Opened.{argument_edits, move_edits, opening, argument_replacement, result_edits};

use ir_event::trees::place::Place;
use ir_event::trees::value::Value;
use ir_event::types::ids::OpId;
use patterns_plans::base::edit::Edit;
use std::alloc::{AllocError, Global};

/// Returns `value` after the arguments of block 0 of `op` are replaced by `values`.
pub fn substitution(op: OpId, values: &[Value], value: &Value) -> Value
    ensures { result ≡ argument_replacement op values.now value.now }
{
    let Value::Arg(owner, region, number) = *value else {
        return *value;
    };
    if owner != op || region != 0 {
        return *value;
    }
    match values.get(number as usize) {
        Some(new) => *new,
        None => *value,
    }
}

/// Appends the edits that replace the arguments of block 0 of `op` by `values`.
fn replace_arguments(op: OpId, values: &[Value], out: &mut Vec<Edit>) -> Result<(), AllocError>
    ensures { OnOk result (out.new.items ≡ out.old.items ++ argument_edits op 0 values.now) }
{
    let mut number = 0;
    for value in values {
        out.push(Edit::Replace {
            old: Value::Arg(op, 0, number),
            new: *value,
        })?;
        number = match number.checked_add(1) {
            None => return Err(AllocError),
            Some(number) => number,
        };
    }
    Ok(())
}

/// Appends the edits that move operations to a place.
fn move_all(place: &Place, ops: &[OpId], out: &mut Vec<Edit>) -> Result<(), AllocError>
    ensures { OnOk result (out.new.items ≡ out.old.items ++ move_edits place.now ops.now) }
{
    for op in ops {
        out.push(Edit::Move {
            op: *op,
            place: *place,
        })?;
    }
    Ok(())
}

/// Appends the edits that replace the results of `op` by the terminator's operands, after the arguments of its block 0
/// are replaced by `values`.
fn replace_results(
    op: OpId,
    values: &[Value],
    handed: &[Value],
    out: &mut Vec<Edit>,
) -> Result<(), AllocError>
    ensures { OnOk result (out.new.items ≡ out.old.items ++ result_edits op values.now 0 handed.now) }
{
    let mut number = 0;
    for value in handed {
        out.push(Edit::Replace {
            old: Value::Result(op, number),
            new: substitution(op, values, value),
        })?;
        number = match number.checked_add(1) {
            None => return Err(AllocError),
            Some(number) => number,
        };
    }
    Ok(())
}

/// Returns the edits that inline a block: values replace the arguments of block 0 of `op`, operations move before
/// `op`, the terminator's operands replace the results of `op`, and `op` is erased.
pub(crate) fn opened(
    alloc: Global,
    op: OpId,
    point: &Place,
    ops: &[OpId],
    values: &[Value],
    handed: &[Value],
) -> Result<Vec<Edit>, AllocError>
    ensures edits { IfOk result (λ es. (c : ContextModel)
        → edits_meaning c es.items ≡ opening op point.now ops.now values.now handed.now) }
    ensures fits_in { IfOk result (λ es. (c : ContextModel) → AllFit c es.items) }
{
    let mut edits = Vec::new(alloc);
    replace_arguments(op, values, &mut edits)?;
    move_all(point, ops, &mut edits)?;
    replace_results(op, values, handed, &mut edits)?;
    edits.push(Edit::Erase { op })?;
    Ok(edits)
}
